// The code that writes one command of a load sheet.
#![tactic(auto)]

ghost use Rattle.std.specs.Prelude.{◌≡◌, [], ◌∷◌, ◌+◌, ◌<◌, ◌≤◌, length};
ghost use Rattle.std.proofs.lemmas.List.Edits.{sets};
ghost use Rattle.sheet.specs.Read.{place_count};
ghost use Rattle.sheet.specs.Sound.{SoundPlaces, SoundCommand};
ghost use Rattle.inverse.specs.Encoding.{immediate, encoded};

use sheet::{Command, Places};

// An opcode and a place, from `at` on.
fn put_place(out: &mut [u8], at: usize, opcode: u8, d: usize)
    requires { (d < place_count) × (at + 2 ≤ length out.old) }
    ensures { out.new ≡ sets out.old at (opcode ∷ d ∷ []) }
{
    let i = at + 1;
    out[at] = opcode;
    out[i] = d as u8;
}

// An opcode and both places, from `at` on.
fn put_places(out: &mut [u8], at: usize, opcode: u8, p: Places)
    requires { SoundPlaces place_count p × (at + 3 ≤ length out.old) }
    ensures { out.new ≡ sets out.old at (opcode ∷ p.d ∷ p.s ∷ []) }
{
    put_place(out, at, opcode, p.d);
    let i = at + 2;
    out[i] = p.s as u8;
}

// The bytes of the vector at offset `k` of the sheet.
fn immediate_at(width: u32, sheet: &[u8], k: usize) -> &[u8]
    requires { k + width ≤ length sheet.now }
    ensures { result.now ≡ immediate width sheet.now k }
{
    let end = k + (width as usize);
    &sheet[k..end]
}

// An opcode, a place and the bytes of a vector, from `at` on.
fn put_immediate(out: &mut [u8], at: usize, opcode: u8, d: usize, vector: &[u8])
    requires { (d < place_count) × (at + 2 + length vector.now ≤ length out.old) }
    ensures { out.new ≡ sets out.old at (opcode ∷ d ∷ vector.now) }
{
    put_place(out, at, opcode, d);
    let to = at + 2;
    memory::copy_at(out, to, vector);
}

// A command of the sheet, from place `at` of `out` on.
pub fn encode(width: u32, sheet: &[u8], c: Command, out: &mut [u8], at: usize)
    requires { SoundCommand width (length sheet.now) c × (at + length (encoded width sheet.now c) ≤ length out.old) }
    ensures { out.new ≡ sets out.old at (encoded width sheet.now c) }
{
    match c {
        Command::Lmul(p) => put_places(out, at, 1, p),
        Command::Rmul(p) => put_places(out, at, 2, p),
        Command::Ldiv(p) => put_places(out, at, 3, p),
        Command::Rdiv(p) => put_places(out, at, 4, p),
        Command::Swap(p) => put_places(out, at, 5, p),
        Command::Flip(d) => put_place(out, at, 6, d),
        Command::Kmul(d, k) => put_immediate(out, at, 7, d, immediate_at(width, sheet, k)),
        Command::Kdiv(d, k) => put_immediate(out, at, 8, d, immediate_at(width, sheet, k)),
    }
}
