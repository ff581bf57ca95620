// The division from the left.
ghost use Rattle.std.specs.Prelude.{◌≡◌};
ghost use Rattle.quasigroup.specs.Division.{left_division};

use tables::Width;
use word::Word;

// a\b, the `x` with a*x = b. In line, since a call would copy both operands first.
#[inline(always)]
pub fn divide<U: Width>(a: [Word<U>; 8], b: [Word<U>; 8]) -> [Word<U>; 8]
    ensures { result ≡ left_division U.tables a b }
{
    crate::right_undone(crate::separated(b, half::left_half(a)))
}
