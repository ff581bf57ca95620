// Recorded runs, held against the run itself: a replay does the run again. Definitions in specs/, laws in proofs/, what a replay answers, and that answer for
// C.
#![tactic(auto)]

ghost use Rattle.std.specs.Prelude.{◌≡◌};
ghost use Rattle.replay.specs.Number.{replay_number, finding_after};

use answer::Refused;

// The first word that differs in a record: the offset of the record's command, the word's place and number, what stands there, and what should.
#[derive(Clone, Copy)]
pub struct Finding {
    pub offset: u64,
    pub place: u64,
    pub word: u64,
    pub found: u64,
    pub expected: u64,
}

// A false record: its number, from 1, and what is told of it.
#[derive(Clone, Copy)]
pub struct FalseRecord {
    pub number: u64,
    pub finding: Finding,
}

// The first false record, or none where every record holds.
pub type ReplayAnswer = Result<Option<FalseRecord>, Refused>;

// The answer as C receives it: the one 64-bit number, and beside a false record the finding's five values.
pub fn report(a: ReplayAnswer, finding: &mut [u64; 5]) -> u64
    ensures value { result ≡ replay_number a }
    ensures finding_after { finding.new ≡ finding_after a finding.old }
{
    match a {
        Ok(None) => 0,
        Ok(Some(r)) => {
            let f = r.finding;
            *finding = [f.offset, f.place, f.word, f.found, f.expected];
            r.number
        }
        Err(e) => answer::number(Err(e)),
    }
}
