// What differs from width to width, for code over the word's type.
ghost use Rattle.std.specs.Prelude.{◌≡◌, ◌<◌, ℕ, true, get_or, refl};
ghost use Rattle.quasigroup.specs.Tables.{Width as Tables, width32, width64, width_of, known_width};

use crate::AMOUNTS;
use word::{Unsigned, Word};

// A type of words with its halves' constants and rotation amounts, each amount below the width.
pub trait Width: Unsigned {
    ghost tables: { Tables };

    fn left_constant() -> Word<Self>
        ensures { result ≡ tables.left_constant };

    fn right_constant() -> Word<Self>
        ensures { result ≡ tables.right_constant };

    fn left_amounts() -> [u32; 8]
        ensures value { result ≡ tables.left_amounts }
        ensures below { (i : ℕ) → get_or result i 0 < Self.width };

    fn right_amounts() -> [u32; 8]
        ensures value { result ≡ tables.right_amounts }
        ensures below { (i : ℕ) → get_or result i 0 < Self.width };

    ghost same_width: { tables.bits ≡ Self.width };

    ghost known: { known_width Self.width ≡ true };

    ghost of_width: { tables ≡ width_of Self.width };
}

impl Width for u32 {
    ghost tables = { width32 };

    fn left_constant() -> Word<u32> {
        Word::new(0xaaaa_aaaa)
    }

    fn right_constant() -> Word<u32> {
        Word::new(0x5555_5555)
    }

    fn left_amounts() -> [u32; 8] {
        AMOUNTS[0]
    }

    fn right_amounts() -> [u32; 8] {
        AMOUNTS[1]
    }

    ghost same_width = { refl };

    ghost known = { refl };

    ghost of_width = { refl };
}

impl Width for u64 {
    ghost tables = { width64 };

    fn left_constant() -> Word<u64> {
        Word::new(0xaaaa_aaaa_aaaa_aaaa)
    }

    fn right_constant() -> Word<u64> {
        Word::new(0x5555_5555_5555_5555)
    }

    fn left_amounts() -> [u32; 8] {
        AMOUNTS[2]
    }

    fn right_amounts() -> [u32; 8] {
        AMOUNTS[3]
    }

    ghost same_width = { refl };

    ghost known = { refl };

    ghost of_width = { refl };
}
