// The loop of a slice: commands from an offset on, counted against a budget. (Crate interpreter has the loops of whole runs.)
#![tactic(auto)]

ghost use Rattle.std.specs.Prelude.{◌≡◌, true, ◌*◌, length};
ghost use Rattle.quasigroup.specs.Tables.{known_width};
ghost use Rattle.sheet.specs.Read.{place_count};
ghost use Rattle.sheet.specs.Run.{vectors_in};
ghost use Rattle.sheet.specs.Progress.{run_state, starting_at, state_after};

// How far a forward run came: the offset that it reached, and the units of the commands done.
#[derive(Clone, Copy)]
pub struct Progress {
    pub offset: usize,
    pub units: usize,
}

// The state after `budget` commands from the offset `start` on, or those that remain up to the sheet's end or its first fault if they are fewer.
pub fn advance(width: u32, sheet: &[u8], start: usize, budget: u16, vectors: &mut [u8]) -> Progress
    requires { (known_width width ≡ true) × (length vectors.old ≡ place_count * width) }
    ensures { run_state result.offset result.units (vectors_in width vectors.new) ≡ state_after budget width sheet.now (starting_at start (vectors_in width vectors.old)) }
{
    let mut offset = start;
    let mut units: usize = 0;
    for done in 0..budget {
        match reader::read_command(width, sheet, offset) {
            Ok(Some(d)) => {
                effect::apply(width, sheet, d.command, vectors);
                units += d.units;
                offset = d.next;
            }
            Ok(None) => break,
            Err(_) => break,
        }
    }
    Progress { offset, units }
}
