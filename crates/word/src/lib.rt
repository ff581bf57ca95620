// Words of w bits: sums, differences and products that wrap, inverses of odd words, rotations.
#![tactic(auto)]

mod unsigned;

ghost use Rattle.std.specs.Prelude.{◌≡◌, ◌-◌, ◌%◌, ◌^◌, ◌<◌, ℕ, map, ⊤};
ghost use Rattle.std.specs.Int.Bits.{bit_xor};
ghost use Rattle.std.proofs.Common.{ap};
ghost use Rattle.word.specs.Word.{plus, minus, times, newton, inverse, rotl};

use std::alloc::AllocError;
use std::marker::Model;
use std::ops::BitXor;
pub use unsigned::Unsigned;

// A word. Contracts see it as its number.
#[derive(Copy)]
pub struct Word<U: Unsigned> {
    bits: U,
}

impl<U: Unsigned> Model for Word<U> {
    ghost Value = { ℕ };

    ghost view = { λ x. U.number x.bits };

    ghost inverse = { λ n. record { bits = U.of_number n } };

    ghost inverse_ok = { λ a h. ap (λ b. record { bits = b }) (U.given_back a.bits) };
}

impl<U: Unsigned> Clone for Word<U> {
    ghost is_clone = { λ x y. y ≡ x };

    ghost is_infallible = { λ _. ⊤ };

    fn clone(&self) -> Result<Word<U>, AllocError> {
        Ok(*self)
    }
}

impl<U: Unsigned> BitXor for Word<U> {
    type Output = Word<U>;

    ghost bitxor_gives = { λ a b r. r ≡ bit_xor a b };

    fn bitxor(self, other: Word<U>) -> Word<U> {
        Word {
            bits: self.bits.bitxor(other.bits),
        }
    }
}

impl<U: Unsigned> Word<U> {
    pub fn new(bits: U) -> Word<U>
        ensures { result ≡ U.number bits }
    {
        Word { bits }
    }

    pub fn bits(self) -> U
        ensures { U.number result ≡ self }
    {
        self.bits
    }

    // The word with a small number.
    pub fn from_u8(n: u8) -> Word<U>
        ensures { result ≡ n }
    {
        Word::new(U::from_u8(n))
    }

    // The sum modulo 2^w.
    pub fn wrapping_add(self, other: Word<U>) -> Word<U>
        ensures { result ≡ plus U.width self other }
    {
        Word::new(self.bits.wrapping_add(other.bits))
    }

    // `self` less `other` modulo 2^w.
    pub fn wrapping_sub(self, other: Word<U>) -> Word<U>
        ensures { result ≡ minus U.width self other }
    {
        Word::new(self.bits.wrapping_sub(other.bits))
    }

    // The product modulo 2^w.
    pub fn wrapping_mul(self, other: Word<U>) -> Word<U>
        ensures { result ≡ times U.width self other }
    {
        Word::new(self.bits.wrapping_mul(other.bits))
    }

    // The word rotated to the left by `r`.
    pub fn rotate_left(self, r: u32) -> Word<U>
        requires { r < U.width }
        ensures value { result ≡ rotl U.width r self }
        ensures fits { result < 2 ^ U.width }
    {
        Word::new(self.bits.rotate_left(r))
    }

    // The word rotated to the right by `r`.
    pub fn rotate_right(self, r: u32) -> Word<U>
        requires { r < U.width }
        ensures value { result ≡ rotl U.width (U.width - r) self }
        ensures fits { result < 2 ^ U.width }
    {
        Word::new(self.bits.rotate_right(r))
    }

    // Twice as many low bits of the inverse of `self`, from the low bits in `x`.
    fn newton(self, x: Word<U>) -> Word<U>
        ensures { result ≡ newton U.width self x }
    {
        x.wrapping_mul(Word::from_u8(2).wrapping_sub(self.wrapping_mul(x)))
    }

    // The inverse of an odd word modulo 2^w. An odd word is its own inverse in three bits, and each step doubles them, five of them past 64.
    pub fn inverse(self) -> Word<U>
        requires { self % 2 ≡ 1 }
        ensures { result ≡ inverse U.width self }
    {
        self.newton(self.newton(self.newton(self.newton(self.newton(self)))))
    }
}

// The words of a vector of eight.
pub fn words<U: Unsigned>(v: [U; 8]) -> [Word<U>; 8]
    ensures { result ≡ map U.number v }
{
    [
        Word::new(v[0]),
        Word::new(v[1]),
        Word::new(v[2]),
        Word::new(v[3]),
        Word::new(v[4]),
        Word::new(v[5]),
        Word::new(v[6]),
        Word::new(v[7]),
    ]
}

// The bits of a vector of eight words.
pub fn bits<U: Unsigned>(v: [Word<U>; 8]) -> [U; 8]
    ensures { map U.number result ≡ v }
{
    [
        v[0].bits(),
        v[1].bits(),
        v[2].bits(),
        v[3].bits(),
        v[4].bits(),
        v[5].bits(),
        v[6].bits(),
        v[7].bits(),
    ]
}
