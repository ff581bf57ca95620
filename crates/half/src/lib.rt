// The halves of EDON-R's product of vectors of eight words, and the left half of the barred product, as values.
#![tactic(auto)]

ghost use Rattle.std.specs.Prelude.{◌≡◌, ◌<◌, All};
ghost use Rattle.word.specs.Word.{rotl};
ghost use Rattle.quasigroup.specs.Tables.{left_sums, right_sums};
ghost use Rattle.quasigroup.specs.Product.{pick, sum, xor, sums, rotations, combinations, left_half, right_half};
ghost use Rattle.quasigroup.specs.Barred.{barred_left_sums, barred_left_half};

use tables::Width;
use word::Word;

// `k` and the five words of `v` with the numbers in `p`, summed; the whole sum is then rotated by `r`.
fn rotated_sum<U: Width>(v: [Word<U>; 8], k: Word<U>, p: [usize; 5], r: u32) -> Word<U>
    requires numbers { All (λ i. i < 8) p }
    requires amount { r < U.width }
    ensures { result ≡ rotl U.tables.bits r (sum U.tables.bits k (pick p v)) }
{
    let a = v[p[0]];
    let b = v[p[1]];
    let c = v[p[2]];
    let d = v[p[3]];
    let e = v[p[4]];
    let rest = b.wrapping_add(c.wrapping_add(d.wrapping_add(e.wrapping_add(k))));
    a.wrapping_add(rest).rotate_left(r)
}

// The XOR of the three words of `t` with the numbers in `p`.
fn combination<U: Width>(t: [Word<U>; 8], p: [usize; 3]) -> Word<U>
    requires { All (λ i. i < 8) p }
    ensures { result ≡ xor (pick p t) }
{
    t[p[0]] ^ (t[p[1]] ^ t[p[2]])
}

// The vector as it is, read word by word: a copy of the array would join two words into one load, which waits for the stores before it.
fn words<U: Width>(v: [Word<U>; 8]) -> [Word<U>; 8]
    ensures { result ≡ v }
{
    [v[0], v[1], v[2], v[3], v[4], v[5], v[6], v[7]]
}

fn left_sums<U: Width>(v: [Word<U>; 8]) -> [Word<U>; 8]
    ensures { result ≡ rotations U.tables.bits U.tables.left_amounts (sums U.tables.bits U.tables.left_constant left_sums v) }
{
    let p = tables::LEFT_SUMS;
    let r = U::left_amounts();
    let k = U::left_constant();
    let zero: Word<U> = Word::from_u8(0);
    [
        rotated_sum(v, k, p[0], r[0]),
        rotated_sum(v, zero, p[1], r[1]),
        rotated_sum(v, zero, p[2], r[2]),
        rotated_sum(v, zero, p[3], r[3]),
        rotated_sum(v, zero, p[4], r[4]),
        rotated_sum(v, zero, p[5], r[5]),
        rotated_sum(v, zero, p[6], r[6]),
        rotated_sum(v, zero, p[7], r[7]),
    ]
}

// The sums over X with the words of `v` taken from the other end: the table has 7 - i for i.
fn barred_left_sums<U: Width>(v: [Word<U>; 8]) -> [Word<U>; 8]
    ensures { result ≡ rotations U.tables.bits U.tables.left_amounts (sums U.tables.bits U.tables.left_constant barred_left_sums v) }
{
    let b = tables::BARRED_LEFT_SUMS;
    let r = U::left_amounts();
    let k = U::left_constant();
    let zero: Word<U> = Word::from_u8(0);
    [
        rotated_sum(v, k, b[0], r[0]),
        rotated_sum(v, zero, b[1], r[1]),
        rotated_sum(v, zero, b[2], r[2]),
        rotated_sum(v, zero, b[3], r[3]),
        rotated_sum(v, zero, b[4], r[4]),
        rotated_sum(v, zero, b[5], r[5]),
        rotated_sum(v, zero, b[6], r[6]),
        rotated_sum(v, zero, b[7], r[7]),
    ]
}

fn left_combinations<U: Width>(t: [Word<U>; 8]) -> [Word<U>; 8]
    ensures { result ≡ combinations left_sums t }
{
    let p = tables::LEFT_XORS;
    [
        combination(t, p[0]),
        combination(t, p[1]),
        combination(t, p[2]),
        combination(t, p[3]),
        combination(t, p[4]),
        combination(t, p[5]),
        combination(t, p[6]),
        combination(t, p[7]),
    ]
}

// The left half of the product.
pub fn left_half<U: Width>(x: [Word<U>; 8]) -> [Word<U>; 8]
    ensures { result ≡ left_half U.tables x }
{
    left_combinations(left_sums(words(x)))
}

// The left half of the barred product. The block step has just loaded `x` word by word, so that `words` would gain nothing.
pub fn barred_left_half<U: Width>(x: [Word<U>; 8]) -> [Word<U>; 8]
    ensures { result ≡ barred_left_half U.tables x }
{
    left_combinations(barred_left_sums(x))
}

fn right_sums<U: Width>(v: [Word<U>; 8]) -> [Word<U>; 8]
    ensures { result ≡ rotations U.tables.bits U.tables.right_amounts (sums U.tables.bits U.tables.right_constant right_sums v) }
{
    let q = tables::RIGHT_SUMS;
    let r = U::right_amounts();
    let k = U::right_constant();
    let zero: Word<U> = Word::from_u8(0);
    [
        rotated_sum(v, k, q[0], r[0]),
        rotated_sum(v, zero, q[1], r[1]),
        rotated_sum(v, zero, q[2], r[2]),
        rotated_sum(v, zero, q[3], r[3]),
        rotated_sum(v, zero, q[4], r[4]),
        rotated_sum(v, zero, q[5], r[5]),
        rotated_sum(v, zero, q[6], r[6]),
        rotated_sum(v, zero, q[7], r[7]),
    ]
}

fn right_combinations<U: Width>(t: [Word<U>; 8]) -> [Word<U>; 8]
    ensures { result ≡ combinations right_sums t }
{
    let q = tables::RIGHT_XORS;
    [
        combination(t, q[0]),
        combination(t, q[1]),
        combination(t, q[2]),
        combination(t, q[3]),
        combination(t, q[4]),
        combination(t, q[5]),
        combination(t, q[6]),
        combination(t, q[7]),
    ]
}

// The right half of the product.
pub fn right_half<U: Width>(y: [Word<U>; 8]) -> [Word<U>; 8]
    ensures { result ≡ right_half U.tables y }
{
    right_combinations(right_sums(words(y)))
}
