// Words, and vectors of eight of them, in lent bytes, lowest byte first.
#![tactic(auto)]

ghost use Rattle.std.specs.Prelude.{◌≡◌, ◌++◌, ◌+◌, ◌*◌, ◌^◌, ◌<◌, ◌≤◌, ℕ, get_or, length, take, drop};
ghost use Rattle.std.proofs.Common.{lit<, lit≤, refl};
ghost use Rattle.std.proofs.lemmas.List.Edits.{sets};
ghost use Rattle.memory.specs.Bytes.{word_at, words_at, bytes, bytes_of};
ghost use Rattle.lent_words.specs.Fits.{VectorFits};

use word::{Unsigned, Word};

// An unsigned integer type whose values are lent as bytes.
pub trait LentWord: Unsigned {
    ghost BYTES: { ℕ };

    // The bytes of a word.
    const BYTES: usize;

    // The number whose bytes stand at `at`. That these are its bytes and that it is one of the type's is said too, since a caller does not know the elements to be
    // bytes.
    fn load(s: &[u8], at: usize) -> Self
        requires { at + BYTES ≤ length s.now }
        ensures value { Self.number result ≡ word_at BYTES s.now at }
        ensures result_value { bytes BYTES (Self.number result) ≡ take BYTES (drop at s.now) }
        ensures fits { Self.number result < 2 ^ Self.width };

    // The bytes of `self` at `at`. That they are all of it is said too, since a caller does not know the number to be one of the type's.
    fn store(self, out: &mut [u8], at: usize)
        requires { at + BYTES ≤ length out.old }
        ensures out_after { out.new ≡ sets out.old at (bytes BYTES (Self.number self)) }
        ensures fits { Self.number self < 2 ^ Self.width };

    ghost most_bytes: { BYTES ≤ 8 };

    ghost bits_of_bytes: { Self.width ≡ 8 * BYTES };

    // A vector of the type's words fits in memory, so that functions may hand one on that take and give none.
    ghost vector_fits: { VectorFits Self.row };
}

impl LentWord for u32 {
    ghost BYTES = { 4 };

    const BYTES: usize = 4;

    fn load(s: &[u8], at: usize) -> u32 {
        u32::from_le_bytes([s[at], s[at + 1], s[at + 2], s[at + 3]])
    }

    fn store(self, out: &mut [u8], at: usize) {
        memory::copy_at(out, at, &u32::to_le_bytes(self));
    }

    ghost most_bytes = { lit≤ tt };

    ghost bits_of_bytes = { refl };

    ghost vector_fits = { lit< tt };
}

impl LentWord for u64 {
    ghost BYTES = { 8 };

    const BYTES: usize = 8;

    fn load(s: &[u8], at: usize) -> u64 {
        u64::from_le_bytes([
            s[at],
            s[at + 1],
            s[at + 2],
            s[at + 3],
            s[at + 4],
            s[at + 5],
            s[at + 6],
            s[at + 7],
        ])
    }

    fn store(self, out: &mut [u8], at: usize) {
        memory::copy_at(out, at, &u64::to_le_bytes(self));
    }

    ghost most_bytes = { lit≤ tt };

    ghost bits_of_bytes = { refl };

    ghost vector_fits = { lit< tt };
}

// The word whose bytes stand at `at`, lowest byte first. That these are its bytes is said too, since a caller does not know the elements to be bytes.
pub fn load<U: LentWord>(s: &[u8], at: usize) -> Word<U>
    requires { at + U.BYTES ≤ length s.now }
    ensures value { result ≡ word_at U.BYTES s.now at }
    ensures result_value { bytes U.BYTES result ≡ take U.BYTES (drop at s.now) }
    ensures fits { result < 2 ^ U.width }
{
    Word::new(U::load(s, at))
}

// The bytes of `x` at `at`, lowest byte first, and that they are all of it.
pub fn store<U: LentWord>(out: &mut [u8], at: usize, x: Word<U>)
    requires { at + U.BYTES ≤ length out.old }
    ensures out_after { out.new ≡ sets out.old at (bytes U.BYTES x) }
    ensures fits { x < 2 ^ U.width }
{
    x.bits().store(out, at);
}

// The first eight words of `s`.
pub fn load_vector<U: LentWord>(s: &[u8]) -> [Word<U>; 8]
    requires { 8 * U.BYTES ≤ length s.now }
    ensures value { result ≡ words_at U.BYTES 8 s.now 0 }
    ensures fits { (i : ℕ) → i < 8 → get_or result i 0 < 2 ^ U.width }
{
    [
        load(s, 0),
        load(s, U::BYTES),
        load(s, 2 * U::BYTES),
        load(s, 3 * U::BYTES),
        load(s, 4 * U::BYTES),
        load(s, 5 * U::BYTES),
        load(s, 6 * U::BYTES),
        load(s, 7 * U::BYTES),
    ]
}

// The words of `v` at the start of `out`; the rest of `out` stays.
pub fn store_vector<U: LentWord>(out: &mut [u8], v: [Word<U>; 8])
    requires { 8 * U.BYTES ≤ length out.old }
    ensures out_after { out.new ≡ bytes_of U.BYTES v ++ drop (8 * U.BYTES) out.old }
    ensures fits { (i : ℕ) → i < 8 → get_or v i 0 < 2 ^ U.width }
{
    store(out, 0, v[0]);
    store(out, U::BYTES, v[1]);
    store(out, 2 * U::BYTES, v[2]);
    store(out, 3 * U::BYTES, v[3]);
    store(out, 4 * U::BYTES, v[4]);
    store(out, 5 * U::BYTES, v[5]);
    store(out, 6 * U::BYTES, v[6]);
    store(out, 7 * U::BYTES, v[7]);
}
