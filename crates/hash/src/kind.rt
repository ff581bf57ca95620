// The two kinds of hash, each by the type of its words.
ghost use Rattle.std.specs.Prelude.{◌≡◌, ◌*◌, [], ℕ, get_or, map, refl};
ghost use Rattle.std.proofs.Common.{lit<};
ghost use Rattle.digest.specs.Kind as digest;
ghost use Rattle.digest.specs.Pipe.{Pipe, written};
ghost use Rattle.digest.specs.Step.{step};
ghost use Rattle.digest.proofs.Answers.{Sized, narrow_sized, wide_sized};
ghost use Rattle.hash.specs.Fits.{PipeFits, AbsorbedFits, HashFits, OutcomeFits};

use lent_words::LentWord;
use tables::Width;

// A type of words with its kind of hash: the two sizes in bits, and the starting pipe of each.
pub trait Kind: Width + LentWord {
    ghost kind: { digest.Kind };

    ghost SMALL: { ℕ };

    ghost LARGE: { ℕ };

    const SMALL: u64;

    const LARGE: u64;

    // The two vectors of the starting pipe of a size.
    fn start(size: u32) -> [[Self; 8]; 2]
        ensures { (map Self.number (get_or result 0 []) ≡ (kind.start size).first)
            × (map Self.number (get_or result 1 []) ≡ (kind.start size).second) };

    ghost small: { kind.small ≡ SMALL };

    ghost large: { kind.large ≡ LARGE };

    ghost sized: { Sized kind };

    ghost block_length: { kind.block ≡ 16 * Self.BYTES };

    ghost block_step: { kind.step ≡ step Self.tables };

    ghost pipe_bytes: { (p : Pipe) → kind.written p ≡ written Self.BYTES p };

    // A pipe fits in memory, by itself and in a hash and what holds one, so that functions may make them.
    ghost pipe_fits: { PipeFits Self.row };

    ghost absorbed_fits: { AbsorbedFits Self.row (16 * Self.BYTES) };

    ghost hash_fits: { HashFits Self.row (16 * Self.BYTES) };

    ghost outcome_fits: { OutcomeFits Self.row (16 * Self.BYTES) };
}

// The narrow kind, of 224 and 256 bits.
impl Kind for u32 {
    ghost kind = { digest.narrow_kind };

    ghost SMALL = { 224 };

    ghost LARGE = { 256 };

    const SMALL: u64 = 224;

    const LARGE: u64 = 256;

    fn start(size: u32) -> [[u32; 8]; 2] {
        if size == 224 {
            return tables::START_224;
        }
        tables::START_256
    }

    ghost small = { refl };

    ghost large = { refl };

    ghost sized = { narrow_sized };

    ghost block_length = { refl };

    ghost block_step = { refl };

    ghost pipe_bytes = { λ p. refl };

    ghost pipe_fits = { lit< tt };

    ghost absorbed_fits = { lit< tt };

    ghost hash_fits = { lit< tt };

    ghost outcome_fits = { lit< tt };
}

// The wide kind, of 384 and 512 bits.
impl Kind for u64 {
    ghost kind = { digest.wide_kind };

    ghost SMALL = { 384 };

    ghost LARGE = { 512 };

    const SMALL: u64 = 384;

    const LARGE: u64 = 512;

    fn start(size: u32) -> [[u64; 8]; 2] {
        if size == 384 {
            return tables::START_384;
        }
        tables::START_512
    }

    ghost small = { refl };

    ghost large = { refl };

    ghost sized = { wide_sized };

    ghost block_length = { refl };

    ghost block_step = { refl };

    ghost pipe_bytes = { λ p. refl };

    ghost pipe_fits = { lit< tt };

    ghost absorbed_fits = { lit< tt };

    ghost hash_fits = { lit< tt };

    ghost outcome_fits = { lit< tt };
}
