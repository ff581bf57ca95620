// Load sheets: definitions in specs/, laws in proofs/, and the types that definitions speak of. Crate reader has the code that reads.
#![tactic(auto)]

use answer::{Refusal, Refused};

// The number of vectors that a sheet's commands work on.
pub const PLACES: usize = 8;

// The most bytes that a sheet has.
pub const LONGEST: usize = 4096;

// The most commands that a sheet has: none takes fewer than two bytes.
pub const MOST: usize = 2048;

// The two places of a two-place command: that of the vector that changes, and that of the other operand.
#[derive(Clone, Copy)]
pub struct Places {
    pub d: usize,
    pub s: usize,
}

// A command; the names are document 01's. Kmul and Kdiv hold the place and the offset in the sheet of their vector K.
#[derive(Clone, Copy)]
pub enum Command {
    Lmul(Places),
    Rmul(Places),
    Ldiv(Places),
    Rdiv(Places),
    Swap(Places),
    Flip(usize),
    Kmul(usize, usize),
    Kdiv(usize, usize),
}

// A command that was read, the offset behind it, and its units: 1 if it counts as work, and else 0.
#[derive(Clone, Copy)]
pub struct Decoded {
    pub command: Command,
    pub next: usize,
    pub units: usize,
}

// What stands at an offset of a sheet: a command, nothing at the sheet's end, or a fault.
pub type Read = Result<Option<Decoded>, Refusal>;

// The commands of a sheet without fault, counted, and their units.
#[derive(Clone, Copy)]
pub struct Counts {
    pub commands: usize,
    pub units: usize,
}

// What the check of a whole sheet finds: its counts, or the first fault and its command's offset.
pub type Summary = Result<Counts, Refused>;
