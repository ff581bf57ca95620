// The division from the right.
ghost use Rattle.std.specs.Prelude.{◌≡◌};
ghost use Rattle.quasigroup.specs.Division.{right_division};

use tables::Width;
use word::Word;

// b/a, the `y` with y*a = b. In line, since a call would copy both operands first.
#[inline(always)]
pub fn divide<U: Width>(b: [Word<U>; 8], a: [Word<U>; 8]) -> [Word<U>; 8]
    ensures { result ≡ right_division U.tables b a }
{
    crate::left_undone(crate::separated(b, half::right_half(a)))
}
