// The tests of a call that digests many messages: it is refused by number, or answers how many bytes it writes.
#![tactic(auto)]

ghost use Rattle.std.specs.Prelude.{◌≡◌, cond, leb, length};
ghost use Rattle.memory.specs.Lists.{total};
ghost use Rattle.batch.specs.Batch.{batch_answer};

use answer::{Answer, Refusal};

// The most messages of one call.
const MOST: usize = 1024;

// The sum of the lengths. More than 1,024 are refused whatever they are, so they are not read, and 0 stands for their sum.
fn total_length(lengths: &[u32]) -> u64
    ensures { let ns = lengths.now in result ≡ cond (leb (length ns) 1024) (total ns) 0 }
{
    if MOST < lengths.len() {
        return 0;
    }
    let mut sum: u64 = 0;
    for length in lengths {
        sum += *length as u64;
    }
    sum
}

// What the call answers for messages of `joined` bytes together and an output of `room` bytes.
pub fn answer_for(size: u32, joined: usize, lengths: &[u32], room: usize) -> Answer
    ensures { result ≡ batch_answer size joined lengths.now room }
{
    let whole = total_length(lengths) == joined as u64;
    answer::require(refusal::is_known(size), Refusal::Size)?;
    answer::require(lengths.len() <= MOST, Refusal::MessageCount)?;
    answer::require(whole, Refusal::JoinedLength)?;
    let written = lengths.len() * ((size / 8) as usize);
    answer::require(written <= room, Refusal::Output)?;
    Ok(written as u64)
}
