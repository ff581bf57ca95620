// The product and both divisions on lent bytes, for a width given as a number: each call tests its arguments and refuses by number.
#![tactic(auto)]

ghost use Rattle.std.specs.Prelude.{◌≡◌};
ghost use Rattle.quasigroup.specs.Product.{product};
ghost use Rattle.quasigroup.specs.Division.{left_division, right_division};
ghost use Rattle.operands.specs.Operation.{answer_for, output_after};

use answer::Answer;

// X*Y, into the first `width` bytes of `out`.
pub fn product(width: u32, x: &[u8], y: &[u8], out: &mut [u8]) -> Answer
    ensures value { result ≡ answer_for width x.now y.now out.old }
    ensures out_after { out.new ≡ output_after product width x.now y.now out.old }
{
    let written = operands::answer_for(width, x, y, out)?;
    if width == 32 {
        lent_vectors::product::<u32>(x, y, out);
    } else {
        lent_vectors::product::<u64>(x, y, out);
    }
    Ok(written)
}

// a\b, into the first `width` bytes of `out`.
pub fn left_division(width: u32, a: &[u8], b: &[u8], out: &mut [u8]) -> Answer
    ensures value { result ≡ answer_for width a.now b.now out.old }
    ensures out_after { out.new ≡ output_after left_division width a.now b.now out.old }
{
    let written = operands::answer_for(width, a, b, out)?;
    if width == 32 {
        lent_vectors::left_division::<u32>(a, b, out);
    } else {
        lent_vectors::left_division::<u64>(a, b, out);
    }
    Ok(written)
}

// b/a, into the first `width` bytes of `out`.
pub fn right_division(width: u32, b: &[u8], a: &[u8], out: &mut [u8]) -> Answer
    ensures value { result ≡ answer_for width b.now a.now out.old }
    ensures out_after { out.new ≡ output_after right_division width b.now a.now out.old }
{
    let written = operands::answer_for(width, b, a, out)?;
    if width == 32 {
        lent_vectors::right_division::<u32>(b, a, out);
    } else {
        lent_vectors::right_division::<u64>(b, a, out);
    }
    Ok(written)
}
