// Slices: forward runs that start at an offset of their sheet and do at most as many commands as their budget. Definitions in specs/, laws in proofs/, what
// a slice answers, and that as a number.
#![tactic(auto)]

ghost use Rattle.std.specs.Prelude.{◌≡◌};
ghost use Rattle.slice.specs.Number.{slice_number};

use answer::Refused;

// How far a slice came: the offset that it reached, and the units of the commands done.
#[derive(Clone, Copy)]
pub struct Reached {
    pub offset: u16,
    pub units: u16,
}

pub type SliceAnswer = Result<Reached, Refused>;

// The answer as the one 64-bit number that C receives.
pub fn number(a: SliceAnswer) -> u64
    ensures { result ≡ slice_number a }
{
    answer::number(a.map(|r| r.units as u64 * 65536 + r.offset as u64))
}
