// The inverse sheet of a load sheet, which document 02 calls the sheet that goes home.
#![tactic(auto)]

ghost use Rattle.std.specs.Prelude.{◌≡◌, true, ◌≤◌, length, Ok};
ghost use Rattle.sheet.specs.SheetAnswer.{sheet_answer};
ghost use Rattle.inverse.specs.Encoding.{Accepted};
ghost use Rattle.inverse.specs.Inverse.{inverse_written, room_answer, inverse_answer, inverse_out};

use answer::{Answer, Refusal};

// What the tests of width and sheet answer: a refusal as a run has it, or the sheet's length.
fn sheet_answer(width: u32, sheet: &[u8]) -> Answer
    ensures { let s = sheet.now in result ≡ sheet_answer width true s (Ok (length s)) }
{
    answer::require(operands::known_width(width), Refusal::Width)?;
    let mut none = [0u16; 0];
    scanner::check(width, sheet, &mut none)?;
    Ok(sheet.len() as u64)
}

// What the test of the output's room answers, for a sheet of `size` bytes.
fn room_answer(size: usize, room: usize) -> Answer
    ensures { result ≡ room_answer size room }
{
    answer::require(size <= room, Refusal::Output)?;
    Ok(size as u64)
}

// The inverse of an accepted sheet, to the start of `out`. What undoes a command stands as far from the end as the command from the start, so the sheet is
// read once, from its start on, and no offsets are remembered.
#[tactic(auto, using(crate::proofs::Inverting::ended, crate::proofs::Inverting::faulty))]
fn write_inverse(width: u32, sheet: &[u8], out: &mut [u8])
    requires { Accepted width sheet.now × (length sheet.now ≤ length out.old) }
    ensures { out.new ≡ inverse_written width sheet.now out.old }
{
    let mut at = 0;
    while let Ok(Some(d)) = reader::read_command(width, sheet, at) {
        let c = d.command;
        let back = commands::opposite(c);
        let to = sheet.len() - d.next;
        encoder::encode(width, sheet, back, out, to);
        at = d.next;
    }
}

// The inverse sheet, to the start of `out`; what stands behind it in `out` stays. The sheet's faults come before the output's room.
pub fn inverse_sheet(width: u32, sheet: &[u8], out: &mut [u8]) -> Answer
    ensures value { result ≡ inverse_answer width sheet.now out.old }
    ensures out_after { out.new ≡ inverse_out width sheet.now out.old }
{
    sheet_answer(width, sheet)?;
    let written = room_answer(sheet.len(), out.len())?;
    write_inverse(width, sheet, out);
    Ok(written)
}
