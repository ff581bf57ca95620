// Slices of a load sheet over lent vectors: forward runs from an offset on, of as many commands as their budget has.
#![tactic(auto)]

ghost use Rattle.std.specs.Prelude.{◌≡◌, true};
ghost use Rattle.quasigroup.specs.Tables.{known_width};
ghost use Rattle.slice.specs.Slice.{slice_answer, slice_bytes};

use answer::{Refusal, Refused};
use slice::{Reached, SliceAnswer};

// A slice at a width of document 01's. (The tests answer the units of the whole sheet, and the slice those of what it did.)
fn slice_at(width: u32, vectors: &mut [u8], sheet: &[u8], start: usize, budget: u16) -> SliceAnswer
    requires { known_width width ≡ true }
    ensures value { result ≡ slice_answer budget width sheet.now start vectors.old }
    ensures vectors_after { vectors.new ≡ slice_bytes budget width sheet.now start vectors.old }
{
    answer::require(
        precheck::vectors_fit(width, vectors.len()),
        Refusal::Operand,
    )?;
    let _whole = precheck::start_answer(width, sheet, start)?;
    let p = stepper::advance(width, sheet, start, budget, vectors);
    let offset = p.offset as u16;
    let units = p.units as u16;
    Ok(Reached { offset, units })
}

// A slice of a sheet over the lent vectors.
pub fn run_slice(
    width: u32,
    vectors: &mut [u8],
    sheet: &[u8],
    offset: u32,
    budget: u16,
) -> SliceAnswer
    ensures value { result ≡ slice_answer budget width sheet.now offset vectors.old }
    ensures vectors_after { vectors.new ≡ slice_bytes budget width sheet.now offset vectors.old }
{
    let start = offset as usize;
    if width == 32 {
        return slice_at(32, vectors, sheet, start, budget);
    }
    if width == 64 {
        return slice_at(64, vectors, sheet, start, budget);
    }
    Err(Refused::from(Refusal::Width))
}
