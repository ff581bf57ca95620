// What an operation of the kit answers: a success with its number, or a refusal with an offset.
#![tactic(auto)]

ghost use Rattle.std.specs.Prelude.{◌≡◌, ◌<◌};
ghost use Rattle.answer.specs.Answer.{refused_at};
ghost use Rattle.answer.specs.Number.{refusal_number, number_of, marked_number};
ghost use Rattle.answer.specs.Refuse.{passed};

// Why a call is refused, with the number that document 01 or 02 gives it.
#[derive(Clone, Copy)]
pub enum Refusal {
    Size = 1,
    State = 2,
    Length = 3,
    Output = 4,
    Width = 5,
    Operand = 6,
    Sheet = 7,
    Opcode = 8,
    Truncated = 9,
    Place = 10,
    SamePlace = 11,
    MessageCount = 12,
    JoinedLength = 13,
    Start = 14,
    BitCount = 15,
    Records = 16,
    RecordCount = 17,
    Pairs = 19,
}

// A refusal, and the offset of the first byte of the first faulty command of a sheet; 0 for a refusal that has no place.
#[derive(Clone, Copy)]
pub struct Refused {
    pub refusal: Refusal,
    pub offset: u32,
}

impl From<Refusal> for Refused {
    ghost from_gives = { λ r e. e ≡ record { refusal = r; offset = 0 } };

    fn from(refusal: Refusal) -> Refused {
        Refused { refusal, offset: 0 }
    }
}

pub type Answer = Result<u64, Refused>;

// Bit 63: no call has a success as large.
const MARK: u64 = 9223372036854775808;

// A test of a call's arguments: where it does not hold, the call is refused.
pub fn require(holds: bool, refusal: Refusal) -> Result<(), Refused>
    ensures { result ≡ passed holds refusal }
{
    if holds {
        Ok(())
    } else {
        Err(Refused::from(refusal))
    }
}

// The number of a refusal.
pub fn refusal_number(r: Refusal) -> u64
    ensures value { result ≡ refusal_number r }
    ensures upper_bound { result < 256 }
{
    r as u64
}

// The answer as the one 64-bit number that C receives.
pub fn number(a: Answer) -> u64
    ensures { result ≡ number_of a }
{
    match a {
        Ok(n) => n,
        Err(e) => refusal_number(e.refusal) * 4294967296 + e.offset as u64,
    }
}

// The same for a call whose success can pass 2^32: a refusal has bit 63 set besides.
pub fn marked_number(a: Answer) -> u64
    ensures { result ≡ marked_number a }
{
    match a {
        Ok(n) => n,
        Err(e) => MARK + (refusal_number(e.refusal) * 4294967296 + e.offset as u64),
    }
}
