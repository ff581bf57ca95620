// Runs of a load sheet over lent vectors, forward and backward.
#![tactic(auto)]

ghost use Rattle.std.specs.Prelude.{◌≡◌, true};
ghost use Rattle.quasigroup.specs.Tables.{known_width};
ghost use Rattle.invertible.specs.RoundTrip.{Forward, Backward};
ghost use Rattle.sheet.specs.Run.{run_answer, run_bytes};

use answer::{Answer, Refusal, Refused};
use sheet::MOST;

// A forward run at a width of document 01's.
fn forward_at(width: u32, vectors: &mut [u8], sheet: &[u8]) -> Answer
    requires { known_width width ≡ true }
    ensures value { result ≡ run_answer width sheet.now vectors.old }
    ensures vectors_after { vectors.new ≡ run_bytes Forward width sheet.now vectors.old }
{
    answer::require(
        precheck::vectors_fit(width, vectors.len()),
        Refusal::Operand,
    )?;
    let mut none = [0u16; 0];
    let counts = scanner::check(width, sheet, &mut none)?;
    interpreter::forward(width, sheet, vectors);
    Ok(counts.units as u64)
}

// A backward run at a width of document 01's. The offsets are remembered, so that its time is linear.
fn backward_at(width: u32, vectors: &mut [u8], sheet: &[u8]) -> Answer
    requires { known_width width ≡ true }
    ensures value { result ≡ run_answer width sheet.now vectors.old }
    ensures vectors_after { vectors.new ≡ run_bytes Backward width sheet.now vectors.old }
{
    answer::require(
        precheck::vectors_fit(width, vectors.len()),
        Refusal::Operand,
    )?;
    let mut offsets = [0u16; MOST];
    let counts = scanner::check(width, sheet, &mut offsets)?;
    interpreter::backward(width, sheet, &offsets[..counts.commands], vectors);
    let undone = counts.units;
    Ok(undone as u64)
}

// A forward run of a sheet over the lent vectors.
pub fn run_forward(width: u32, vectors: &mut [u8], sheet: &[u8]) -> Answer
    ensures value { result ≡ run_answer width sheet.now vectors.old }
    ensures vectors_after { vectors.new ≡ run_bytes Forward width sheet.now vectors.old }
{
    if width == 32 {
        return forward_at(32, vectors, sheet);
    }
    if width == 64 {
        return forward_at(64, vectors, sheet);
    }
    Err(Refused::from(Refusal::Width))
}

// A backward run of a sheet over the lent vectors.
pub fn run_backward(width: u32, vectors: &mut [u8], sheet: &[u8]) -> Answer
    ensures value { result ≡ run_answer width sheet.now vectors.old }
    ensures vectors_after { vectors.new ≡ run_bytes Backward width sheet.now vectors.old }
{
    if width == 32 {
        return backward_at(32, vectors, sheet);
    }
    if width == 64 {
        return backward_at(64, vectors, sheet);
    }
    Err(Refused::from(Refusal::Width))
}
