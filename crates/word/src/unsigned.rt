// The integer types whose values are the words of one width.
ghost use Rattle.std.specs.Prelude.{◌≡◌, ◌-◌, ◌^◌, ◌<◌, ◌≤◌, ℕ, refl};
ghost use Rattle.std.specs.Int.Bits.{bit_xor};
ghost use Rattle.std.proofs.Common.{lit<, lit≤};
ghost use Rattle.word.specs.Word.{plus, minus, times, rotl};

// An unsigned integer type of `width` bits.
pub trait Unsigned: Copy {
    ghost width: { ℕ };

    ghost number: { Self → ℕ };

    ghost of_number: { ℕ → Self };

    ghost given_back: { (x : Self) → of_number (number x) ≡ x };

    fn from_u8(n: u8) -> Self
        ensures { number result ≡ n };

    fn wrapping_add(self, other: Self) -> Self
        ensures { number result ≡ plus width (number self) (number other) };

    fn wrapping_sub(self, other: Self) -> Self
        ensures { number result ≡ minus width (number self) (number other) };

    fn wrapping_mul(self, other: Self) -> Self
        ensures { number result ≡ times width (number self) (number other) };

    fn bitxor(self, other: Self) -> Self
        ensures { number result ≡ bit_xor (number self) (number other) };

    // That the value is one of the type's is said too: a caller does not know it of a type that it cannot name.
    fn rotate_left(self, r: u32) -> Self
        requires { r < width }
        ensures value { number result ≡ rotl width r (number self) }
        ensures fits { number result < 2 ^ width };

    fn rotate_right(self, r: u32) -> Self
        requires { r < width }
        ensures value { number result ≡ rotl width (width - r) (number self) }
        ensures fits { number result < 2 ^ width };

    ghost some_bits: { 0 < width };

    ghost most_bits: { width ≤ 64 };
}

impl Unsigned for u32 {
    ghost width = { 32 };

    ghost number = { λ x. x };

    ghost of_number = { λ n. n };

    ghost given_back = { λ x. refl };

    fn from_u8(n: u8) -> u32 {
        n as u32
    }

    #[tactic(auto, unfolding(crate::specs::Word::plus))]
    fn wrapping_add(self, other: u32) -> u32 {
        u32::wrapping_add(self, other)
    }

    fn wrapping_sub(self, other: u32) -> u32 {
        u32::wrapping_sub(self, other)
    }

    #[tactic(auto, unfolding(crate::specs::Word::times))]
    fn wrapping_mul(self, other: u32) -> u32 {
        u32::wrapping_mul(self, other)
    }

    fn bitxor(self, other: u32) -> u32 {
        self ^ other
    }

    fn rotate_left(self, r: u32) -> u32 {
        u32::rotate_left(self, r)
    }

    fn rotate_right(self, r: u32) -> u32 {
        u32::rotate_right(self, r)
    }

    ghost some_bits = { lit< tt };

    ghost most_bits = { lit≤ tt };
}

impl Unsigned for u64 {
    ghost width = { 64 };

    ghost number = { λ x. x };

    ghost of_number = { λ n. n };

    ghost given_back = { λ x. refl };

    fn from_u8(n: u8) -> u64 {
        n as u64
    }

    #[tactic(auto, unfolding(crate::specs::Word::plus))]
    fn wrapping_add(self, other: u64) -> u64 {
        u64::wrapping_add(self, other)
    }

    fn wrapping_sub(self, other: u64) -> u64 {
        u64::wrapping_sub(self, other)
    }

    #[tactic(auto, unfolding(crate::specs::Word::times))]
    fn wrapping_mul(self, other: u64) -> u64 {
        u64::wrapping_mul(self, other)
    }

    fn bitxor(self, other: u64) -> u64 {
        self ^ other
    }

    fn rotate_left(self, r: u32) -> u64 {
        u64::rotate_left(self, r)
    }

    fn rotate_right(self, r: u32) -> u64 {
        u64::rotate_right(self, r)
    }

    ghost some_bits = { lit< tt };

    ghost most_bits = { lit≤ tt };
}
