// The tests before a run over lent vectors: their length, and for a slice its sheet and where it starts.
#![tactic(auto)]

ghost use Rattle.std.specs.Prelude.{◌≡◌, ◌||◌, ◌*◌, eqb};
ghost use Rattle.answer.specs.declared.Refusal.TheVariants.{Start};
ghost use Rattle.answer.specs.Refuse.{unless};
ghost use Rattle.sheet.specs.Read.{place_count};
ghost use Rattle.sheet.specs.Sheet.{plan_of};
ghost use Rattle.sheet.specs.Work.{summary, found_answer};
ghost use Rattle.sheet.specs.Start.{is_start, then_start};

use answer::{Answer, Refusal};
use sheet::{PLACES, Summary};

// Whether `n` bytes are those of the vectors.
pub fn vectors_fit(width: u32, n: usize) -> bool
    ensures { result ≡ eqb n (place_count * width) }
{
    n == PLACES * (width as usize)
}

// What the check of a sheet answers by itself.
fn sheet_answer(found: Summary) -> Answer
    ensures { result ≡ found_answer found }
{
    let counts = found?;
    Ok(counts.units as u64)
}

// What the tests of a slice's sheet and start answer: the first fault of the whole sheet, wherever the slice starts; then 14; or the sheet's units.
pub fn start_answer(width: u32, sheet: &[u8], start: usize) -> Answer
    ensures { let s = sheet.now in result ≡ then_start (is_start width s start) (found_answer (summary width s (plan_of width s))) }
{
    let mut none = [0u16; 0];
    let found = scanner::check_start(width, sheet, start, &mut none);
    let units = sheet_answer(found.summary)?;
    answer::require(found.starts || start == sheet.len(), Refusal::Start)?;
    Ok(units)
}
