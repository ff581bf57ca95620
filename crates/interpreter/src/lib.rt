// The interpreter of load sheets: one command done, and the loops that do and undo commands, over lent vectors, at a known width and with bytes for every
// vector.
#![tactic(auto)]

ghost use Rattle.std.specs.Prelude.{◌≡◌, true, reverse, ◌*◌, ◌≤◌, length, take};
ghost use Rattle.quasigroup.specs.Tables.{known_width};
ghost use Rattle.sheet.specs.Read.{place_count};
ghost use Rattle.sheet.specs.Sheet.{scan_from};
ghost use Rattle.invertible.specs.RoundTrip.{Forward, Backward};
ghost use Rattle.sheet.specs.Run.{step, steps, vectors_in};
ghost use Rattle.sheet.specs.Progress.{starting_at, state_after};

// The vectors after the commands of a sheet, up to its end or its first fault.
pub fn forward(width: u32, sheet: &[u8], vectors: &mut [u8])
    requires { (known_width width ≡ true) × (length vectors.old ≡ place_count * width) }
    ensures { let s = sheet.now in vectors_in width vectors.new ≡ steps Forward width s (scan_from (length s) width s 0).offsets (vectors_in width vectors.old) }
{
    let mut at = 0;
    while let Ok(Some(d)) = reader::read_command(width, sheet, at) {
        effect::apply(width, sheet, d.command, vectors);
        at = d.next;
    }
}

// The vectors after the command at the offset, where one stands, and the offset behind it; where none does, nothing moves.
pub fn step_forward(width: u32, sheet: &[u8], offset: usize, vectors: &mut [u8]) -> usize
    requires { (known_width width ≡ true) × (length vectors.old ≡ place_count * width) }
    ensures { let p = state_after 1 width sheet.now (starting_at offset (vectors_in width vectors.old)) in
        (result ≡ p.offset) × (vectors_in width vectors.new ≡ p.vectors) }
{
    if let Ok(Some(d)) = reader::read_command(width, sheet, offset) {
        effect::apply(width, sheet, d.command, vectors);
        return d.next;
    }
    offset
}

// The vectors after the command at an offset is undone.
fn undo(width: u32, sheet: &[u8], at: usize, vectors: &mut [u8])
    requires { (known_width width ≡ true) × (length vectors.old ≡ place_count * width) }
    ensures { vectors_in width vectors.new ≡ step Backward width sheet.now at (vectors_in width vectors.old) }
{
    if let Ok(Some(d)) = reader::read_command(width, sheet, at) {
        let back = commands::opposite(d.command);
        effect::apply(width, sheet, back, vectors);
    }
}

// The vectors after the commands at the offsets are undone, the last one first.
pub fn backward(width: u32, sheet: &[u8], offsets: &[u16], vectors: &mut [u8])
    requires { (known_width width ≡ true) × (length vectors.old ≡ place_count * width) }
    ensures { let l = reverse offsets.now in vectors_in width vectors.new ≡ steps Backward width sheet.now l (vectors_in width vectors.old) }
{
    for at in offsets.iter().rev() {
        undo(width, sheet, usize::from(*at), vectors);
    }
}
