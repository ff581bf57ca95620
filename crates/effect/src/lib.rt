// The effect of one command on lent vectors, at the width that the sheet is read at.
#![tactic(auto)]

pub mod vectors;

ghost use Rattle.std.specs.Prelude.{◌≡◌, true, ◌*◌, length};
ghost use Rattle.quasigroup.specs.Tables.{known_width};
ghost use Rattle.sheet.specs.Read.{place_count};
ghost use Rattle.sheet.specs.Effect.{effect};
ghost use Rattle.sheet.specs.Run.{vectors_in};
ghost use Rattle.sheet.specs.Sound.{SoundCommand};

use sheet::Command;

// The vectors after a command.
pub fn apply(width: u32, sheet: &[u8], c: Command, vectors: &mut [u8])
    requires { (known_width width ≡ true) × (length vectors.old ≡ place_count * width) × SoundCommand width (length sheet.now) c }
    ensures { vectors_in width vectors.new ≡ effect width sheet.now c (vectors_in width vectors.old) }
{
    if width == 32 {
        vectors::apply::<u32>(sheet, c, vectors);
    } else {
        vectors::apply::<u64>(sheet, c, vectors);
    }
}
