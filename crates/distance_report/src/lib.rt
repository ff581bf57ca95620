// What the program `flips` prints for the bytes of its file.
#![tactic(auto)]

ghost use Rattle.std.specs.Prelude.{◌≡◌, [], ◌∷◌, ◌++◌, ◌+◌, ◌<◌, ◌≤◌, length};
ghost use Rattle.std.proofs.lemmas.List.Edits.{sets};
ghost use Rattle.text.specs.Label.{refused};
ghost use Rattle.text.specs.Pushed.{Pushed};
ghost use Rattle.distance_report.specs.Report.{line, lines, total_line};
ghost use Rattle.distance_report.specs.Report.{report as reportOf};

use answer::{Answer, Refusal};

// A report takes no more bytes than this: 42 for a record, of which there are 1,024 at most, and 27 for the last line, with each number counted as 20 digits.
pub const LONGEST_TEXT: usize = 43035;

// The line of the record `number`.
fn push_line(out: &mut [u8], at: usize, number: usize, count: u16) -> usize
    requires { at < 700000 }
    ensures pushed { Pushed out.old at (line number count) out.new result }
    ensures upper_bound { result ≤ at + 42 }
{
    let first = text::push_number(out, at, number);
    let second = text::push_spaced(out, first, count as usize);
    text::push(out, second, 10)
}

// The lines of all records, whose counts are given.
fn push_lines(out: &mut [u8], counts: &[u16]) -> usize
    requires { length counts.now ≤ 1024 }
    ensures pushed { Pushed out.old 0 (lines 1 counts.now) out.new result }
    ensures upper_bound { result ≤ 43008 }
{
    let mut next = 0;
    for k in 0..counts.len() {
        next = push_line(out, next, k + 1, counts[k]);
    }
    next
}

// The last line.
fn push_total(out: &mut [u8], at: usize, sum: u64) -> usize
    requires { at < 700000 }
    ensures pushed { Pushed out.old at (total_line sum) out.new result }
    ensures upper_bound { result ≤ at + 27 }
{
    let word = [b't', b'o', b't', b'a', b'l'];
    let next = text::push_labelled(out, at, &word, sum as usize);
    text::push(out, next, 10)
}

// The only line of a refusal.
fn push_refusal(out: &mut [u8], r: Refusal) -> usize
    ensures pushed { Pushed out.old 0 (refused r ++ (10 ∷ [])) out.new result }
    ensures upper_bound { result ≤ 29 }
{
    let next = text::push_refused(out, r);
    text::push(out, next, 10)
}

// What is printed for `records`, from the start of the lent array on, as far as it has places; the answer is the text's length.
pub fn report(records: &[u8], out: &mut [u8]) -> usize
    ensures out_after { out.new ≡ sets out.old 0 (reportOf records.now) }
    ensures value { result ≡ length (reportOf records.now) }
    ensures upper_bound { result ≤ 43035 }
{
    let mut counts = [0u16; 1024];
    match distances::flipped_bits(records, &mut counts) {
        Ok(sum) => {
            let n = records.len() / 64;
            let at = push_lines(out, &counts[..n]);
            push_total(out, at, sum)
        }
        Err(e) => push_refusal(out, e.refusal),
    }
}
