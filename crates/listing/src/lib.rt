// What the lister prints for a sheet.
#![tactic(auto)]

ghost use Rattle.std.specs.Prelude.{◌≡◌, ◌∷◌, ◌+◌, ◌<◌, ◌≤◌, length};
ghost use Rattle.std.proofs.lemmas.List.Edits.{sets};
ghost use Rattle.sheet.specs.Sheet.{scan_from};
ghost use Rattle.listing.specs.Listing.{both, line, lines, end_line, refused_line, listing};
ghost use Rattle.listing.specs.Listing.{name as name_of};
ghost use Rattle.listing.specs.Listing.{places as places_of};
ghost use Rattle.text.specs.Pushed.{Pushed};

use answer::Refusal;
use sheet::{Command, Places};

// A listing takes no more bytes than this: 68 for a command, of which there are 2,048 at most, and 64 for the last line, with each number
// counted as 20 digits.
pub const LONGEST_TEXT: usize = 139328;

// The name of a command.
fn name(c: Command) -> [u8; 4]
    ensures { result ≡ name_of c }
{
    match c {
        Command::Lmul(_) => [b'l', b'm', b'u', b'l'],
        Command::Rmul(_) => [b'r', b'm', b'u', b'l'],
        Command::Ldiv(_) => [b'l', b'd', b'i', b'v'],
        Command::Rdiv(_) => [b'r', b'd', b'i', b'v'],
        Command::Swap(_) => [b's', b'w', b'a', b'p'],
        Command::Flip(_) => [b'f', b'l', b'i', b'p'],
        Command::Kmul(_, _) => [b'k', b'm', b'u', b'l'],
        Command::Kdiv(_, _) => [b'k', b'd', b'i', b'v'],
    }
}

// Both places of a command.
fn push_both(out: &mut [u8], at: usize, p: Places) -> usize
    requires { at < 800000 }
    ensures pushed { Pushed out.old at (both p) out.new result }
    ensures upper_bound { result ≤ at + 42 }
{
    let next = text::push_spaced(out, at, p.d);
    text::push_spaced(out, next, p.s)
}

// The places of a command.
fn push_places(out: &mut [u8], at: usize, c: Command) -> usize
    requires { at < 800000 }
    ensures pushed { Pushed out.old at (places_of c) out.new result }
    ensures upper_bound { result ≤ at + 42 }
{
    match c {
        Command::Lmul(p) => push_both(out, at, p),
        Command::Rmul(p) => push_both(out, at, p),
        Command::Ldiv(p) => push_both(out, at, p),
        Command::Rdiv(p) => push_both(out, at, p),
        Command::Swap(p) => push_both(out, at, p),
        Command::Flip(d) => text::push_spaced(out, at, d),
        Command::Kmul(d, _) => text::push_spaced(out, at, d),
        Command::Kdiv(d, _) => text::push_spaced(out, at, d),
    }
}

// A space and the name of a command.
fn push_name(out: &mut [u8], at: usize, c: Command) -> usize
    requires { at < 800000 }
    ensures pushed { Pushed out.old at (32 ∷ name_of c) out.new result }
    ensures upper_bound { result ≤ at + 5 }
{
    let next = text::push(out, at, b' ');
    let text = name(c);
    text::push_text(out, next, &text)
}

// The line of a command at the offset `offset` of the sheet.
fn push_line(out: &mut [u8], at: usize, offset: usize, c: Command) -> usize
    requires { at < 700000 }
    ensures pushed { Pushed out.old at (line offset c) out.new result }
    ensures upper_bound { result ≤ at + 68 }
{
    let first = text::push_number(out, at, offset);
    let second = push_name(out, first, c);
    let third = push_places(out, second, c);
    text::push(out, third, 10)
}

// The lines of a sheet's commands, up to its end or its first fault.
#[tactic(auto, using(crate::proofs::Lines::lines_fault, crate::proofs::Lines::lines_end))]
fn push_lines(width: u32, sheet: &[u8], out: &mut [u8]) -> usize
    requires { length sheet.now ≤ 4096 }
    ensures fact { let s = sheet.now in Pushed out.old 0 (lines width s (scan_from (length s) width s 0).offsets) out.new result }
    ensures upper_bound { result ≤ 139264 }
{
    let mut next = 0;
    let mut at = 0;
    while let Ok(Some(d)) = reader::read_command(width, sheet, at) {
        next = push_line(out, next, at, d.command);
        at = d.next;
    }
    next
}

// The last line of a listing: `size` is the sheet's length in bytes, `count` the number of its commands.
fn push_end(out: &mut [u8], at: usize, size: usize, count: usize) -> usize
    requires { at < 700000 }
    ensures pushed { Pushed out.old at (end_line size count) out.new result }
    ensures upper_bound { result ≤ at + 64 }
{
    let text = [b'e', b'n', b'd'];
    let first = text::push_labelled(out, at, &text, size);
    let second = text::push_spaced(out, first, count);
    text::push(out, second, 10)
}

// The line of a refused sheet.
fn push_refused(out: &mut [u8], r: Refusal, offset: u32) -> usize
    ensures pushed { Pushed out.old 0 (refused_line r offset) out.new result }
    ensures upper_bound { result ≤ 64 }
{
    let first = text::push_refused(out, r);
    let second = text::push_spaced(out, first, offset as usize);
    text::push(out, second, 10)
}

// What the lister prints for a sheet, from the start of the lent array on, as far as it has places; the answer is the text's length.
pub fn list(width: u32, sheet: &[u8], out: &mut [u8]) -> usize
    ensures out_after { out.new ≡ sets out.old 0 (listing width sheet.now) }
    ensures value { result ≡ length (listing width sheet.now) }
    ensures upper_bound { result ≤ 139328 }
{
    let mut none = [0u16; 0];
    match scanner::check(width, sheet, &mut none) {
        Ok(counts) => {
            let at = push_lines(width, sheet, out);
            push_end(out, at, sheet.len(), counts.commands)
        }
        Err(e) => push_refused(out, e.refusal, e.offset),
    }
}
