// What the operations of a hash answer: every refusal of both kinds, by numbers alone. `small` and `large` are a kind's two sizes.
#![tactic(auto)]

ghost use Rattle.std.specs.Prelude.{◌≡◌, ◌/◌, ltb};
ghost use Rattle.digest.specs.Kind.{known_size, kind_for};
ghost use Rattle.digest.specs.Refusals.{is_size, in_form, opening, feeding, delivering, finishing_bits, digesting};

use answer::{Answer, Refusal};

// The largest total of bytes.
pub const LIMIT: u64 = 2305843009213693951;

pub fn is_size(small: u64, large: u64, size: u64) -> bool
    ensures { result ≡ is_size small large size }
{
    size == small || size == large
}

// Whether `size` is one of the four.
pub fn is_known(size: u32) -> bool
    ensures { result ≡ known_size (kind_for size) size }
{
    is_size(384, 512, size as u64) || is_size(224, 256, size as u64)
}

fn in_form(small: u64, large: u64, size: u64, total: u64) -> bool
    ensures { result ≡ in_form small large size total }
{
    is_size(small, large, size) && total <= LIMIT
}

pub fn opening(small: u64, large: u64, size: u64) -> Answer
    ensures { result ≡ opening small large size }
{
    answer::require(is_size(small, large, size), Refusal::Size)?;
    Ok(0)
}

pub fn feeding(small: u64, large: u64, size: u64, total: u64, len: usize) -> Answer
    ensures { result ≡ feeding small large size total len }
{
    answer::require(in_form(small, large, size, total), Refusal::State)?;
    let more = len as u64;
    answer::require(more <= LIMIT - total, Refusal::Length)?;
    Ok(total + more)
}

// Whether an output of `room` bytes is too short for a digest of `size` bits.
pub fn is_short(size: u64, room: usize) -> bool
    ensures { result ≡ ltb room (size / 8) }
{
    room < (size / 8) as usize
}

fn delivering(size: u64, room: usize) -> Answer
    ensures { result ≡ delivering size room }
{
    answer::require(!is_short(size, room), Refusal::Output)?;
    Ok(size / 8)
}

pub fn finishing(small: u64, large: u64, size: u64, total: u64, count: u32, room: usize) -> Answer
    ensures { result ≡ finishing_bits small large size total count room }
{
    answer::require(in_form(small, large, size, total), Refusal::State)?;
    answer::require(count <= 7, Refusal::BitCount)?;
    let length = delivering(size, room)?;
    Ok(length)
}

pub fn digesting(small: u64, large: u64, size: u64, len: usize, room: usize) -> Answer
    ensures { result ≡ digesting small large size len room }
{
    answer::require(is_size(small, large, size), Refusal::Size)?;
    answer::require(len as u64 <= LIMIT, Refusal::Length)?;
    delivering(size, room)
}
