// Hashing in pieces as C calls it, by value: each answer is one number, beside the state.
#![tactic(auto)]

ghost use Rattle.std.specs.Prelude.{◌≡◌};
ghost use Rattle.answer.specs.Number.{number_of};
ghost use Rattle.answer.specs.Refuse.{outcome};
ghost use Rattle.digest.specs.Kind.{narrow_kind, wide_kind};
ghost use Rattle.digest.specs.State.{finish_answer, finish_out, finish_bits_answer, finish_bits_out};
ghost use Rattle.narrow.specs.Outcomes.{hash_of as ofNarrow};
ghost use Rattle.wide.specs.Outcomes.{hash_of as ofWide};
ghost use Rattle.pieces.specs.Piece.{narrow_opened, narrow_fed, wide_opened, wide_fed};

use answer::Answer;
use narrow::Narrow;
use wide::Wide;

#[derive(Clone, Copy)]
pub struct NarrowPiece {
    pub number: u64,
    pub state: Narrow,
}

#[derive(Clone, Copy)]
pub struct WidePiece {
    pub number: u64,
    pub state: Wide,
}

// What an answer leaves of a narrow hash: `new`, or beside a refusal `old`.
fn narrow_outcome(answer: Answer, new: Narrow, old: Narrow) -> Narrow
    ensures { result ≡ outcome answer new old }
{
    if answer.is_ok() { new } else { old }
}

// A narrow hash of `size` bits is opened where `hash` stands, which a refusal leaves as it was.
pub fn narrow_open(hash: Narrow, size: u32) -> NarrowPiece
    ensures { result ≡ narrow_opened hash size }
{
    let r = narrow::open(size);
    let answer = r.answer;
    let opened = r.state;
    let number = answer::number(answer);
    let state = narrow_outcome(answer, opened, hash);
    NarrowPiece { number, state }
}

pub fn narrow_feed(hash: Narrow, bytes: &[u8]) -> NarrowPiece
    ensures { result ≡ narrow_fed hash bytes.now }
{
    let r = narrow::feed(hash, bytes);
    let answer = r.answer;
    let number = answer::marked_number(answer);
    let state = r.state;
    NarrowPiece { number, state }
}

// The digest of what a narrow hash was fed: document 01's finishing, which is that with no bits.
pub fn narrow_finish(hash: Narrow, out: &mut [u8]) -> u64
    ensures { (result ≡ number_of (finish_answer narrow_kind (ofNarrow hash) out.old))
        × (out.new ≡ finish_out narrow_kind (ofNarrow hash) out.old) }
{
    narrow_finish_bits(hash, 0, 0, out)
}

// The same, with the `count` highest bits of `last` behind what was fed.
pub fn narrow_finish_bits(hash: Narrow, last: u8, count: u32, out: &mut [u8]) -> u64
    ensures { (result ≡ number_of (finish_bits_answer narrow_kind (ofNarrow hash) count out.old))
        × (out.new ≡ finish_bits_out narrow_kind (ofNarrow hash) last count out.old) }
{
    answer::number(narrow::finish(hash, last, count, out))
}

// What an answer leaves of a wide hash: `new`, or beside a refusal `old`.
fn wide_outcome(answer: Answer, new: Wide, old: Wide) -> Wide
    ensures { result ≡ outcome answer new old }
{
    if answer.is_ok() { new } else { old }
}

// A wide hash of `size` bits is opened where `hash` stands, which a refusal leaves as it was.
pub fn wide_open(hash: Wide, size: u32) -> WidePiece
    ensures { result ≡ wide_opened hash size }
{
    let r = wide::open(size);
    let answer = r.answer;
    let opened = r.state;
    let number = answer::number(answer);
    let state = wide_outcome(answer, opened, hash);
    WidePiece { number, state }
}

pub fn wide_feed(hash: Wide, bytes: &[u8]) -> WidePiece
    ensures { result ≡ wide_fed hash bytes.now }
{
    let r = wide::feed(hash, bytes);
    let answer = r.answer;
    let number = answer::marked_number(answer);
    let state = r.state;
    WidePiece { number, state }
}

// The digest of what a wide hash was fed: document 01's finishing, which is that with no bits.
pub fn wide_finish(hash: Wide, out: &mut [u8]) -> u64
    ensures { (result ≡ number_of (finish_answer wide_kind (ofWide hash) out.old))
        × (out.new ≡ finish_out wide_kind (ofWide hash) out.old) }
{
    wide_finish_bits(hash, 0, 0, out)
}

// The same, with the `count` highest bits of `last` behind what was fed.
pub fn wide_finish_bits(hash: Wide, last: u8, count: u32, out: &mut [u8]) -> u64
    ensures { (result ≡ number_of (finish_bits_answer wide_kind (ofWide hash) count out.old))
        × (out.new ≡ finish_bits_out wide_kind (ofWide hash) last count out.old) }
{
    answer::number(wide::finish(hash, last, count, out))
}
