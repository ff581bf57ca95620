// EDON-R's product of vectors of eight words, and the barred product, as values.
#![tactic(auto)]

ghost use Rattle.std.specs.Prelude.{◌≡◌};
ghost use Rattle.quasigroup.specs.Vector.{reversed};
ghost use Rattle.quasigroup.specs.Product.{joined, product};
ghost use Rattle.quasigroup.specs.Barred.{barred_product};

use half::{barred_left_half, left_half, right_half};
use tables::Width;
use word::{Unsigned, Word};

// The halves added, in the order of the result. A caller that multiplies where it counts joins the halves itself: they are put in line
// there, and a half that two products share is made once.
pub fn joined<U: Width>(a: [Word<U>; 8], b: [Word<U>; 8]) -> [Word<U>; 8]
    ensures { result ≡ joined U.tables.bits a b }
{
    [
        a[3].wrapping_add(b[3]),
        a[4].wrapping_add(b[4]),
        a[5].wrapping_add(b[5]),
        a[6].wrapping_add(b[6]),
        a[7].wrapping_add(b[7]),
        a[0].wrapping_add(b[0]),
        a[1].wrapping_add(b[1]),
        a[2].wrapping_add(b[2]),
    ]
}

// The product of `x` and `y`.
pub fn product<U: Width>(x: [Word<U>; 8], y: [Word<U>; 8]) -> [Word<U>; 8]
    ensures { result ≡ product U.tables x y }
{
    joined(left_half(x), right_half(y))
}

// The barred product of `x` and `y`: the words of `x` are taken from the other end.
pub fn barred_product<U: Width>(x: [Word<U>; 8], y: [Word<U>; 8]) -> [Word<U>; 8]
    ensures { result ≡ barred_product U.tables x y }
{
    joined(barred_left_half(x), right_half(y))
}

// The words of `v` in reverse order.
pub fn reversed<U: Unsigned>(v: [Word<U>; 8]) -> [Word<U>; 8]
    ensures { result ≡ reversed v }
{
    [v[7], v[6], v[5], v[4], v[3], v[2], v[1], v[0]]
}
