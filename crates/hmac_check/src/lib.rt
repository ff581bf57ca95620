// The tests of the calls that make and compare tags, by numbers alone, and the block length of a size.
#![tactic(auto)]

ghost use Rattle.std.specs.Prelude.{◌≡◌, Ok};
ghost use Rattle.hmac.specs.Hmac.{block_for};
ghost use Rattle.hmac.specs.Calls.{fitting, keying, hmac_answer};

use answer::{Answer, Refusal};
use refusal::LIMIT;

// The bytes of a block: those of the wide kind for its sizes, and else those of the narrow kind.
pub fn block_length(size: u32) -> usize
    ensures { result ≡ block_for size }
{
    if refusal::is_size(384, 512, size as u64) {
        return 128;
    }
    64
}

// Whether a key can be digested, and a message behind one block.
fn is_fitting(size: u32, key: usize, message: usize) -> bool
    ensures { result ≡ fitting size key message }
{
    let most = LIMIT - block_length(size) as u64;
    key as u64 <= LIMIT && message as u64 <= most
}

// What the call that makes a tag answers.
pub fn making(size: u32, key: usize, message: usize, room: usize) -> Answer
    ensures { result ≡ hmac_answer size key message room }
{
    answer::require(refusal::is_known(size), Refusal::Size)?;
    answer::require(is_fitting(size, key, message), Refusal::Length)?;
    answer::require(!refusal::is_short(size as u64, room), Refusal::Output)?;
    Ok((size / 8) as u64)
}

// What both calls refuse. A success here says only that nothing was refused, and has the number 0, which is no.
pub fn keying(size: u32, key: usize, message: usize) -> Answer
    ensures { result ≡ keying size key message (Ok 0) }
{
    answer::require(refusal::is_known(size), Refusal::Size)?;
    let fits = is_fitting(size, key, message);
    answer::require(fits, Refusal::Length)?;
    Ok(0)
}
