// A block forward and back on a pipe in lent bytes, for a width given as a number: each call tests its arguments and refuses by number.
#![tactic(auto)]

ghost use Rattle.std.specs.Prelude.{◌≡◌};
ghost use Rattle.invertible.specs.RoundTrip.{Forward, Backward};
ghost use Rattle.pipe.specs.Call.{step_answer, step_bytes};

use answer::Answer;

// The pipe after the block, in its place.
pub fn forward(width: u32, pipe: &mut [u8], block: &[u8]) -> Answer
    ensures value { result ≡ step_answer width block.now pipe.old }
    ensures pipe_after { pipe.new ≡ step_bytes Forward width block.now pipe.old }
{
    let written = operands::step::answer_for(width, pipe, block)?;
    if width == 32 {
        block::step_in::<u32>(pipe, block);
    } else {
        block::step_in::<u64>(pipe, block);
    }
    Ok(written)
}

// The pipe before the block, in its place.
pub fn backward(width: u32, pipe: &mut [u8], block: &[u8]) -> Answer
    ensures value { result ≡ step_answer width block.now pipe.old }
    ensures pipe_after { pipe.new ≡ step_bytes Backward width block.now pipe.old }
{
    let written = operands::step::answer_for(width, pipe, block)?;
    if width == 32 {
        block::step_back_in::<u32>(pipe, block);
    } else {
        block::step_back_in::<u64>(pipe, block);
    }
    Ok(written)
}
