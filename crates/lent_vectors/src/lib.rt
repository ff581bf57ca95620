// The product and both divisions on lent bytes over the word's type, for a caller that has tested the lengths: operands of a vector or more.
#![tactic(auto)]

ghost use Rattle.std.specs.Prelude.{◌≡◌, ◌++◌, ◌≤◌, length, drop};
ghost use Rattle.quasigroup.specs.Product.{product};
ghost use Rattle.quasigroup.specs.Division.{left_division, right_division};
ghost use Rattle.operands.specs.Operation.{on_bytes};

use division::{left_undone, right_undone, separated};
use half::{left_half, right_half};
use lent_words::{LentWord, load_vector, store_vector};
use product::joined;
use tables::Width;

// X*Y, at the start of `out`.
pub fn product<U: Width + LentWord>(x: &[u8], y: &[u8], out: &mut [u8])
    requires { (U.width ≤ length x.now) × (U.width ≤ length y.now) × (U.width ≤ length out.old) }
    ensures { out.new ≡ on_bytes product U.width x.now y.now ++ drop U.width out.old }
{
    let left = left_half::<U>(load_vector(x));
    let right = right_half(load_vector(y));
    store_vector(out, joined(left, right));
}

// a\b, at the start of `out`.
pub fn left_division<U: Width + LentWord>(a: &[u8], b: &[u8], out: &mut [u8])
    requires { (U.width ≤ length a.now) × (U.width ≤ length b.now) × (U.width ≤ length out.old) }
    ensures { out.new ≡ on_bytes left_division U.width a.now b.now ++ drop U.width out.old }
{
    let g = left_half::<U>(load_vector(a));
    let z = separated(load_vector(b), g);
    store_vector(out, right_undone(z));
}

// b/a, at the start of `out`.
pub fn right_division<U: Width + LentWord>(b: &[u8], a: &[u8], out: &mut [u8])
    requires { (U.width ≤ length b.now) × (U.width ≤ length a.now) × (U.width ≤ length out.old) }
    ensures { out.new ≡ on_bytes right_division U.width b.now a.now ++ drop U.width out.old }
{
    let h = right_half::<U>(load_vector(a));
    let z = separated(load_vector(b), h);
    store_vector(out, left_undone(z));
}
