// What product and divisions on lent bytes answer, steps of one block and calls on records: decided by the width, the lengths of the operands and the room
// of the output. Calls that take a sheet test their width here too.
#![tactic(auto)]

pub mod records;
pub mod step;

ghost use Rattle.std.specs.Prelude.{◌≡◌, ◌&&◌, eqb, length};
ghost use Rattle.quasigroup.specs.Tables.{known_width};
ghost use Rattle.operands.specs.Operation.{answer_for};

use answer::{Answer, Refusal};

// Whether the width is 32 or 64.
pub fn known_width(width: u32) -> bool
    ensures { result ≡ known_width width }
{
    width == 32 || width == 64
}

// Whether both operands are exactly `n` bytes.
fn operands_fit(n: usize, x: &[u8], y: &[u8]) -> bool
    ensures { result ≡ eqb (length x.now) n && eqb (length y.now) n }
{
    x.len() == n && y.len() == n
}

// The answer, by the refusals in their order. Nothing is written.
pub fn answer_for(width: u32, x: &[u8], y: &[u8], out: &[u8]) -> Answer
    ensures { result ≡ answer_for width x.now y.now out.now }
{
    answer::require(known_width(width), Refusal::Width)?;
    let w = width as usize;
    answer::require(operands_fit(w, x, y), Refusal::Operand)?;
    answer::require(w <= out.len(), Refusal::Output)?;
    Ok(width as u64)
}
