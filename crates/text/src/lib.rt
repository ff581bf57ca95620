// Text in a lent buffer, one piece behind the other. Where the buffer ends bytes are dropped and places are counted on, so that the length of
// the whole text is told however short the buffer is. No text ends behind place 1,048,576: so no sum of places overflows.
#![tactic(auto)]

ghost use Rattle.std.specs.Prelude.{◌≡◌, [], ◌∷◌, ◌+◌, ◌<◌, ◌≤◌, length, set};
ghost use Rattle.text.specs.Decimal.{decimal, spaced};
ghost use Rattle.text.specs.Label.{labelled, refused};
ghost use Rattle.text.specs.Pushed.{Pushed};

use answer::Refusal;

// A byte at place `at`, where there is one.
fn store(out: &mut [u8], at: usize, b: u8)
    ensures { out.new ≡ set out.old at b }
{
    if at < out.len() {
        out[at] = b;
    }
}

// A byte at place `at`; the answer is the next place, here and below.
pub fn push(out: &mut [u8], at: usize, b: u8) -> usize
    requires { at < 1048576 }
    ensures { Pushed out.old at (b ∷ []) out.new result }
{
    store(out, at, b);
    at + 1
}

// A text.
pub fn push_text(out: &mut [u8], at: usize, text: &[u8]) -> usize
    requires { at + length text.now ≤ 1048576 }
    ensures { Pushed out.old at text.now out.new result }
{
    let mut next = at;
    for byte in text {
        next = push(out, next, *byte);
    }
    next
}

// A number in decimal.
pub fn push_number(out: &mut [u8], at: usize, n: usize) -> usize
    requires { at + 20 ≤ 1048576 }
    ensures pushed { Pushed out.old at (decimal n) out.new result }
    ensures upper_bound { result ≤ at + 20 }
{
    let mut text = [0u8; 20];
    let k = io::decimal(n as u64, &mut text);
    push_text(out, at, &text[..k])
}

// A space and a number.
pub fn push_spaced(out: &mut [u8], at: usize, n: usize) -> usize
    requires { at + 21 ≤ 1048576 }
    ensures pushed { Pushed out.old at (spaced n) out.new result }
    ensures upper_bound { result ≤ at + 21 }
{
    let next = push(out, at, b' ');
    push_number(out, next, n)
}

// A word, a space and a number.
pub fn push_labelled(out: &mut [u8], at: usize, word: &[u8], n: usize) -> usize
    requires { at + length word.now + 21 ≤ 1048576 }
    ensures pushed { Pushed out.old at (labelled word.now n) out.new result }
    ensures upper_bound { result ≤ at + length word.now + 21 }
{
    let next = push_text(out, at, word);
    push_spaced(out, next, n)
}

// The word `refused` and the number of a refusal, at the start.
pub fn push_refused(out: &mut [u8], r: Refusal) -> usize
    ensures pushed { Pushed out.old 0 (refused r) out.new result }
    ensures upper_bound { result ≤ 28 }
{
    let word = [b'r', b'e', b'f', b'u', b's', b'e', b'd'];
    push_labelled(out, 0, &word, answer::refusal_number(r) as usize)
}
