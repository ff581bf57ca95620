// The loop over records: the commands of a run are done again, and each record is held against the state that they lead to.
#![tactic(auto)]

ghost use Rattle.std.specs.Prelude.{◌≡◌, true, ◌%◌, length};
ghost use Rattle.quasigroup.specs.Tables.{known_width};
ghost use Rattle.sheet.specs.Run.{vectors_in};
ghost use Rattle.shuffle.specs.Shuffle.{record_length};
ghost use Rattle.replay.specs.Replay.{record_count, state_by, first_false};
ghost use Rattle.verifier.specs.Done.{commands_done};

use replay::{FalseRecord, ReplayAnswer};

// The first false record. `state` is lent with the starting vectors and goes from one command to the next, as far as records are looked at.
pub fn first_false(width: u32, sheet: &[u8], records: &[u8], state: &mut [u8]) -> ReplayAnswer
    requires { (known_width width ≡ true) × (length state.old ≡ record_length width) × (length records.now % record_length width ≡ 0) }
    ensures result_value { let l = records.now in result ≡ first_false (record_count width l) width sheet.now state.old l 0 }
    ensures state_after { let p = state_by width sheet.now state.old (commands_done result (record_count width records.now)) in
        vectors_in width state.new ≡ p.vectors }
{
    let size = state.len();
    let mut number: u64 = 1;
    let mut offset: usize = 0;
    let mut from: usize = 0;
    while from < records.len() {
        let next = interpreter::step_forward(width, sheet, offset, state);
        if !comparison::record_holds(width, state, records, from) {
            let finding = comparison::finding(width, offset, state, records, from);
            return Ok(Some(FalseRecord { number, finding }));
        }
        number += 1;
        offset = next;
        from += size;
    }
    Ok(None)
}
