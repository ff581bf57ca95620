// A hash in progress, and the digest of a whole message, over the kind of hash.
#![tactic(auto)]

mod kind;

ghost use Rattle.std.specs.Prelude.{◌≡◌, ◌++◌, ◌+◌, ◌*◌, ◌<◌, ◌≤◌, length};
ghost use Rattle.digest.specs.Blocks.{compressed, rest, filled};
ghost use Rattle.digest.specs.Step.{step};
ghost use Rattle.digest.specs.State.{closed, open_answer, open_state, feed_answer, feed_state, finish_bits_answer, finish_bits_out};
ghost use Rattle.digest.specs.OneCall.{digest_answer, digest_out};

use answer::Answer;
use compression::Pipe;
pub use kind::Kind;
use lent_words::LentWord;
use std::alloc::AllocError;
use std::marker::Model;
use tables::Width;
use word::{Unsigned, Word};

// A hash in progress. Of `waiting` the first `total` modulo the block's length are waiting, which is document 01's word: fed, and not yet part of a block.
// Contracts see it as the definitions' hash.
#[derive(Copy)]
pub struct Hash<U: Unsigned, const BLOCK: usize> {
    pub size: u64,
    pub pipe: Pipe<U>,
    pub waiting: [u8; BLOCK],
    pub total: u64,
}

impl<U: Unsigned, const BLOCK: usize> Model for Hash<U, BLOCK> {
    ghost use Rattle.digest.specs.State as digest;

    ghost Value = { digest.Hash };

    ghost view = { λ h. record { size = h.size; pipe = h.pipe; waiting = h.waiting; total = h.total } };

    ghost inverse = { λ h. record { size = h.size; pipe = h.pipe; waiting = h.waiting; total = h.total } };
}

impl<U: Unsigned, const BLOCK: usize> Clone for Hash<U, BLOCK> {
    ghost use Rattle.std.specs.Prelude.{⊤};

    ghost is_clone = { λ x y. y ≡ x };

    ghost is_infallible = { λ _. ⊤ };

    fn clone(&self) -> Result<Hash<U, BLOCK>, AllocError> {
        Ok(*self)
    }
}

#[derive(Drop)]
pub struct Outcome<U: Unsigned, const BLOCK: usize> {
    pub answer: Answer,
    pub state: Hash<U, BLOCK>,
}

#[derive(Drop)]
struct Absorbed<U: Unsigned, const BLOCK: usize> {
    pipe: Pipe<U>,
    waiting: [u8; BLOCK],
}

// `a` and then `b`, with zeros behind them.
fn hold<const BLOCK: usize>(a: &[u8], b: &[u8]) -> [u8; BLOCK]
    requires { length a.now + length b.now ≤ BLOCK }
    ensures { result ≡ filled BLOCK (a.now ++ b.now) }
{
    let mut w = [0u8; BLOCK];
    memory::copy_at(&mut w, 0, a);
    memory::copy_at(&mut w, a.len(), b);
    w
}

// Whole blocks of `s`, and the rest held.
fn straight<U: Width + LentWord, const BLOCK: usize>(p: Pipe<U>, s: &[u8]) -> Absorbed<U, BLOCK>
    requires { BLOCK ≡ 16 * U.BYTES }
    ensures { (result.pipe ≡ compressed BLOCK (step U.tables) p s.now) × (result.waiting ≡ filled BLOCK (rest BLOCK s.now)) }
{
    let pipe = block::steps(p, s);
    let from = s.len() / BLOCK * BLOCK;
    let waiting = hold(&s[from..], &s[..0]);
    Absorbed { pipe, waiting }
}

// The pending bytes `a`, and then `s`: only what completes a block that is begun, and what is left over, is copied.
fn absorb<U: Width + LentWord, const BLOCK: usize>(
    p: Pipe<U>,
    a: &[u8],
    s: &[u8],
) -> Absorbed<U, BLOCK>
    requires { (BLOCK ≡ 16 * U.BYTES) × (length a.now < BLOCK) }
    ensures { (result.pipe ≡ compressed BLOCK (step U.tables) p (a.now ++ s.now))
        × (result.waiting ≡ filled BLOCK (rest BLOCK (a.now ++ s.now))) }
{
    if a.len() == 0 {
        return straight(p, s);
    }
    let need = BLOCK - a.len();
    if s.len() < need {
        let waiting = hold(a, s);
        return Absorbed { pipe: p, waiting };
    }
    let first: [u8; BLOCK] = hold(a, &s[..need]);
    let q = block::step(p, &first);
    straight(q, &s[need..])
}

// The pipe behind the last block: the pending bytes `w`, the byte of the one bit, zeros and the length in bits. Two blocks have at most 256 bytes.
fn close<U: Kind>(p: Pipe<U>, w: &[u8], mark: u8, bits: u64) -> Pipe<U>
    requires { length w.now < 16 * U.BYTES }
    ensures { result ≡ closed U.kind p w.now (length w.now) mark bits }
{
    let mut buf = [0u8; 256];
    let n = padding::tail(&mut buf, w, 16 * U::BYTES, mark, bits);
    block::steps(p, &buf[..n])
}

// The starting pipe of a size.
fn start<U: Kind>(size: u32) -> Pipe<U>
    ensures { result ≡ U.kind.start size }
{
    let t = U::start(size);
    Pipe {
        first: word::words(t[0]),
        second: word::words(t[1]),
    }
}

// A hash of `size` bits is opened.
pub fn open<U: Kind, const BLOCK: usize>(size: u32) -> Outcome<U, BLOCK>
    requires { BLOCK ≡ 16 * U.BYTES }
    ensures { (result.answer ≡ open_answer U.kind size) × (result.state ≡ open_state U.kind size) }
{
    let answer = refusal::opening(U::SMALL, U::LARGE, size as u64);
    if answer.is_err() {
        let zeros = [Word::from_u8(0); 8];
        let state = Hash {
            size: 0,
            pipe: Pipe {
                first: zeros,
                second: zeros,
            },
            waiting: [0; BLOCK],
            total: 0,
        };
        return Outcome { answer, state };
    }
    let state = Hash {
        size: size as u64,
        pipe: start(size),
        waiting: [0; BLOCK],
        total: 0,
    };
    Outcome { answer, state }
}

// `hash` takes `bytes`.
pub fn feed<U: Kind, const BLOCK: usize>(hash: Hash<U, BLOCK>, bytes: &[u8]) -> Outcome<U, BLOCK>
    requires { BLOCK ≡ 16 * U.BYTES }
    ensures { (result.answer ≡ feed_answer U.kind hash bytes.now) × (result.state ≡ feed_state U.kind hash bytes.now) }
{
    let size = hash.size;
    let total = hash.total;
    let answer = refusal::feeding(U::SMALL, U::LARGE, size, total, bytes.len());
    if answer.is_err() {
        return Outcome {
            answer,
            state: hash,
        };
    }
    let at = (total % BLOCK as u64) as usize;
    let p = hash.pipe;
    let w = hash.waiting;
    let t: Absorbed<U, BLOCK> = absorb(p, &w[..at], bytes);
    let pipe = t.pipe;
    let waiting = t.waiting;
    let len = bytes.len() as u64;
    let sum = total + len;
    let state = Hash {
        size,
        pipe,
        waiting,
        total: sum,
    };
    Outcome { answer, state }
}

// The digest of what was fed and then the `count` highest bits of `last`, to the start of `out`. The caller's state stays as it is, and may be fed further.
pub fn finish<U: Kind, const BLOCK: usize>(
    hash: Hash<U, BLOCK>,
    last: u8,
    count: u32,
    out: &mut [u8],
) -> Answer
    requires { BLOCK ≡ 16 * U.BYTES }
    ensures value { result ≡ finish_bits_answer U.kind hash count out.old }
    ensures out_after { out.new ≡ finish_bits_out U.kind hash last count out.old }
{
    let size = hash.size;
    let total = hash.total;
    let length = refusal::finishing(U::SMALL, U::LARGE, size, total, count, out.len())?;
    let at = (total % BLOCK as u64) as usize;
    let p = hash.pipe;
    let w = hash.waiting;
    let mark = padding::marked(last, count);
    let bits = padding::bit_length(total, count);
    let q = close(p, &w[..at], mark, bits);
    block::write(q, (size / 8) as usize, out);
    Ok(length)
}

// The digest of `message`, to the start of `out`.
pub fn digest<U: Kind>(size: u32, message: &[u8], out: &mut [u8]) -> Answer
    ensures value { result ≡ digest_answer U.kind size message.now out.old }
    ensures out_after { out.new ≡ digest_out U.kind size message.now out.old }
{
    let length = refusal::digesting(U::SMALL, U::LARGE, size as u64, message.len(), out.len())?;
    let p: Pipe<U> = start(size);
    let q = block::steps(p, message);
    let block = 16 * U::BYTES;
    let from = message.len() / block * block;
    let r = close(q, &message[from..], 0x80, 8 * (message.len() as u64));
    block::write(r, (size / 8) as usize, out);
    Ok(length)
}
