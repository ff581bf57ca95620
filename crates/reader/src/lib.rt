// The code that reads one command of a load sheet.
#![tactic(auto)]

ghost use Rattle.std.specs.Prelude.{◌≡◌, ◌<◌, ◌≤◌, length, get_or};
ghost use Rattle.sheet.specs.Read.{size_of, two_place_command, two_places, one_place_command, one_place, read_at};
ghost use Rattle.sheet.specs.Read.{got as gotOf};

use answer::Refusal;
use sheet::{Command, Decoded, PLACES, Places, Read};

// The number of bytes that a command takes, by its opcode.
fn size_of(width: u32, opcode: u8) -> usize
    ensures { result ≡ size_of width opcode }
{
    if opcode < 6 {
        return 3;
    }
    if opcode == 6 { 2 } else { width as usize + 2 }
}

// A command that was read; `next` is the offset behind it.
fn got(c: Command, next: usize) -> Read
    ensures { result ≡ gotOf c next }
{
    Ok(Some(Decoded {
        command: c,
        next,
        units: commands::units_of(c),
    }))
}

// The command of two places with its opcode.
fn two_place_command(opcode: u8, p: Places) -> Command
    ensures { result ≡ two_place_command opcode p }
{
    match opcode {
        1 => Command::Lmul(p),
        2 => Command::Rmul(p),
        3 => Command::Ldiv(p),
        4 => Command::Rdiv(p),
        _ => Command::Swap(p),
    }
}

// What stands where a command of two places was found; `next` is the offset behind it.
fn two_places(opcode: u8, p: Places, next: usize) -> Read
    ensures { result ≡ two_places opcode p next }
{
    if PLACES <= p.d || PLACES <= p.s {
        return Err(Refusal::Place);
    }
    if p.d == p.s {
        return Err(Refusal::SamePlace);
    }
    got(two_place_command(opcode, p), next)
}

// The command of one place with its opcode; `k` is the offset behind the place.
fn one_place_command(opcode: u8, d: usize, k: usize) -> Command
    ensures { result ≡ one_place_command opcode d k }
{
    match opcode {
        6 => Command::Flip(d),
        7 => Command::Kmul(d, k),
        _ => Command::Kdiv(d, k),
    }
}

// What stands where a command of one place was found; `next` is the offset behind it.
fn one_place(opcode: u8, d: usize, k: usize, next: usize) -> Read
    ensures { result ≡ one_place opcode d k next }
{
    if PLACES <= d {
        return Err(Refusal::Place);
    }
    got(one_place_command(opcode, d, k), next)
}

// What stands at the offset `at`, where a command of `size` bytes by its opcode begins.
#[inline(always)]
fn command_at(width: u32, sheet: &[u8], at: usize, opcode: u8, size: usize) -> Read
    requires opcode_value { (at < length sheet.now) × (opcode ≡ get_or sheet.now at 0) }
    requires known { (0 < opcode) × (opcode ≤ 8) }
    requires size_value { size ≡ size_of width opcode }
    ensures { result ≡ read_at width sheet.now at }
{
    if sheet.len() - at < size {
        return Err(Refusal::Truncated);
    }
    let i = at + 1;
    let d = sheet[i] as usize;
    let j = at + 2;
    if opcode < 6 {
        let s = sheet[j] as usize;
        let p = Places { d, s };
        return two_places(opcode, p, at + size);
    }
    one_place(opcode, d, j, at + size)
}

// What stands at the offset `at` of a sheet. The commands whose size is a constant are told apart first: the compiler then goes on by that constant, and the
// next command need not wait until a size was chosen by this one's opcode.
pub fn read_command(width: u32, sheet: &[u8], at: usize) -> Read
    ensures { result ≡ read_at width sheet.now at }
{
    if sheet.len() <= at {
        return Ok(None);
    }
    let opcode = sheet[at];
    if opcode == 0 || 8 < opcode {
        return Err(Refusal::Opcode);
    }
    if opcode == 6 {
        return command_at(width, sheet, at, opcode, 2);
    }
    if opcode < 6 {
        return command_at(width, sheet, at, opcode, 3);
    }
    command_at(width, sheet, at, opcode, size_of(width, opcode))
}
