// What a call on records, which writes as many bytes as it reads, answers.
ghost use Rattle.std.specs.Prelude.{◌≡◌, ◌^◌, length};
ghost use Rattle.answer.specs.Injective.{Fits};
ghost use Rattle.shuffle.specs.Shuffle.{records_answer};

use answer::{Answer, Refusal};

// The answer, by the refusals in their order. Nothing is written.
pub fn answer_for(width: u32, records: &[u8], out: &[u8]) -> Answer
    ensures value { result ≡ records_answer width (length records.now) (length out.now) }
    ensures fits { Fits (2 ^ 63) result }
{
    answer::require(crate::known_width(width), Refusal::Width)?;
    let n = 8 * (width as usize);
    answer::require(records.len() % n == 0, Refusal::Records)?;
    answer::require(records.len() <= out.len(), Refusal::Output)?;
    Ok(records.len() as u64)
}
