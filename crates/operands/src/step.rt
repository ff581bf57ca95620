// What a step of one block on a lent pipe answers.
ghost use Rattle.std.specs.Prelude.{◌≡◌};
ghost use Rattle.pipe.specs.Call.{step_answer};

use answer::{Answer, Refusal};

// The answer, by the refusals in their order. Nothing is written.
pub fn answer_for(width: u32, pipe: &[u8], block: &[u8]) -> Answer
    ensures { result ≡ step_answer width block.now pipe.now }
{
    answer::require(crate::known_width(width), Refusal::Width)?;
    let n = 2 * (width as usize);
    answer::require(crate::operands_fit(n, pipe, block), Refusal::Operand)?;
    Ok(n as u64)
}
