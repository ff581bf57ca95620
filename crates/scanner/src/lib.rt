// The check of a whole load sheet, command by command.
#![tactic(auto)]

ghost use Rattle.std.specs.Prelude.{◌≡◌, ◌||◌, ◌≤◌, eqb, length, set};
ghost use Rattle.std.proofs.lemmas.List.Edits.{sets};
ghost use Rattle.sheet.specs.Sheet.{scan_from, plan_of};
ghost use Rattle.sheet.specs.Start.{among};
ghost use Rattle.sheet.specs.Work.{summary};

use answer::{Refusal, Refused};
use sheet::{Counts, LONGEST, Summary};

// What the check of a sheet finds, and whether an offset that it was asked for is that of a command before the sheet's end or its first fault.
#[derive(Clone, Copy)]
pub struct Checked {
    pub summary: Summary,
    pub starts: bool,
}

// `x` at place `i` of the lent array, where the array has that place.
fn remember(offsets: &mut [u16], i: usize, x: u16)
    ensures { offsets.new ≡ set offsets.old i x }
{
    if i < offsets.len() {
        offsets[i] = x;
    }
}

// Whether the offset was met `before`, or is `at`.
fn met(before: bool, start: usize, at: usize) -> bool
    ensures { result ≡ before || eqb start at }
{
    if start == at { true } else { before }
}

// The check of a sheet that is not too long.
fn scan(width: u32, sheet: &[u8], start: usize, offsets: &mut [u16]) -> Checked
    requires { length sheet.now ≤ 4096 }
    ensures summary_value { let s = sheet.now in result.summary ≡ summary width s (scan_from (length s) width s 0) }
    ensures starts_value { let s = sheet.now in result.starts ≡ among start (scan_from (length s) width s 0).offsets }
    ensures offsets_after { let s = sheet.now in offsets.new ≡ sets offsets.old 0 (scan_from (length s) width s 0).offsets }
{
    let mut count: usize = 0;
    let mut units: usize = 0;
    let mut at: usize = 0;
    let mut starts = false;
    loop {
        match reader::read_command(width, sheet, at) {
            Ok(Some(d)) => {
                remember(offsets, count, at as u16);
                starts = met(starts, start, at);
                count += 1;
                units += d.units;
                at = d.next;
            }
            Ok(None) => {
                let commands = count;
                let summary = Ok(Counts { commands, units });
                return Checked { summary, starts };
            }
            Err(refusal) => {
                let offset = at as u32;
                let summary = Err(Refused { refusal, offset });
                return Checked { summary, starts };
            }
        }
    }
}

// The check of a whole sheet, and of an offset where a run is to start. The offsets of the commands before the sheet's end or its first fault are left in
// the lent array, as many as it has places for.
pub fn check_start(width: u32, sheet: &[u8], start: usize, offsets: &mut [u16]) -> Checked
    ensures summary_value { result.summary ≡ summary width sheet.now (plan_of width sheet.now) }
    ensures starts_value { result.starts ≡ among start (plan_of width sheet.now).offsets }
    ensures offsets_after { offsets.new ≡ sets offsets.old 0 (plan_of width sheet.now).offsets }
{
    if LONGEST < sheet.len() {
        return Checked {
            summary: Err(Refused::from(Refusal::Sheet)),
            starts: false,
        };
    }
    scan(width, sheet, start, offsets)
}

// The check of a whole sheet by itself.
pub fn check(width: u32, sheet: &[u8], offsets: &mut [u16]) -> Summary
    ensures value { result ≡ summary width sheet.now (plan_of width sheet.now) }
    ensures offsets_after { offsets.new ≡ sets offsets.old 0 (plan_of width sheet.now).offsets }
{
    let found = check_start(width, sheet, 0, offsets);
    found.summary
}
