// Replays: the records of a run are held against the run itself.
#![tactic(auto)]

ghost use Rattle.std.specs.Prelude.{◌≡◌, true, length};
ghost use Rattle.quasigroup.specs.Tables.{known_width};
ghost use Rattle.shuffle.specs.Shuffle.{record_length};
ghost use Rattle.replay.specs.Replay.{record_tests, replay_answer};

use answer::{Answer, Refusal, Refused};
use replay::ReplayAnswer;

// What the tests of `n` bytes of records answer, of a sheet with `commands` commands.
fn records_answer(width: u32, n: usize, commands: usize) -> Answer
    requires { known_width width ≡ true }
    ensures { result ≡ record_tests width n commands }
{
    let size = 8 * (width as usize);
    answer::require(n % size == 0, Refusal::Records)?;
    answer::require(n / size <= commands, Refusal::RecordCount)?;
    Ok(0)
}

// A replay at a width of document 01's, with a state of as many bytes as the vectors have.
fn replay_at(
    width: u32,
    vectors: &[u8],
    sheet: &[u8],
    records: &[u8],
    state: &mut [u8],
) -> ReplayAnswer
    requires { (known_width width ≡ true) × (length state.old ≡ record_length width) }
    ensures { result ≡ replay_answer width sheet.now vectors.now records.now }
{
    answer::require(
        precheck::vectors_fit(width, vectors.len()),
        Refusal::Operand,
    )?;
    let mut none = [0u16; 0];
    let counts = scanner::check(width, sheet, &mut none)?;
    records_answer(width, records.len(), counts.commands)?;
    memory::copy_at(state, 0, vectors);
    verifier::first_false(width, sheet, records, state)
}

// The first false record of a run of the sheet over the vectors, all of which stay as they are. One state serves both widths.
pub fn first_false_record(width: u32, vectors: &[u8], sheet: &[u8], records: &[u8]) -> ReplayAnswer
    ensures { result ≡ replay_answer width sheet.now vectors.now records.now }
{
    let mut state = [0u8; 512];
    if width == 32 {
        return replay_at(32, vectors, sheet, records, &mut state[..256]);
    }
    if width == 64 {
        return replay_at(64, vectors, sheet, records, &mut state[..512]);
    }
    Err(Refused::from(Refusal::Width))
}
