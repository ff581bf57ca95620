// The two divisions of EDON-R's product of vectors of eight words, as values.
#![tactic(auto)]

pub mod left;
pub mod right;

ghost use Rattle.std.specs.Prelude.{◌≡◌, [], ◌-◌, ◌<◌, All};
ghost use Rattle.word.specs.Word.{minus, rotl};
ghost use Rattle.quasigroup.specs.Product.{pick, xor};
ghost use Rattle.quasigroup.specs.Division.{left_unxors, right_unxors, left_inverse, right_inverse, unrotated_sums, unsums, separated};
ghost use Rattle.quasigroup.specs.Division.{unleft, unright};
ghost use Rattle.halves.specs.Balance.{balance, two_fifths};

use tables::Width;
use word::Word;

// The result's words in the order of the combinations, less the half that is known. As with the product's halves, a caller that divides where
// it counts puts a division together from its parts.
pub fn separated<U: Width>(b: [Word<U>; 8], h: [Word<U>; 8]) -> [Word<U>; 8]
    ensures { result ≡ separated U.tables.bits b h }
{
    [
        b[5].wrapping_sub(h[0]),
        b[6].wrapping_sub(h[1]),
        b[7].wrapping_sub(h[2]),
        b[0].wrapping_sub(h[3]),
        b[1].wrapping_sub(h[4]),
        b[2].wrapping_sub(h[5]),
        b[3].wrapping_sub(h[6]),
        b[4].wrapping_sub(h[7]),
    ]
}

// The XOR of the five words of `z` with the numbers in `p`, rotated back by `r`, less `k`: a sum of the half.
fn unrotated<U: Width>(z: [Word<U>; 8], k: Word<U>, p: [usize; 5], r: u32) -> Word<U>
    requires numbers { All (λ i. i < 8) p }
    requires amount { r < U.width }
    ensures { result ≡ minus U.tables.bits (rotl U.tables.bits (U.tables.bits - r) (xor (pick p z))) k }
{
    let xor = z[p[0]] ^ (z[p[1]] ^ (z[p[2]] ^ (z[p[3]] ^ z[p[4]])));
    xor.rotate_right(r).wrapping_sub(k)
}

// `u` and the two words of `s` with the numbers in `p`, less the five with the numbers in `n`.
fn unsummed<U: Width>(u: Word<U>, s: [Word<U>; 8], p: [usize; 2], n: [usize; 5]) -> Word<U>
    requires added { All (λ i. i < 8) p }
    requires taken_away { All (λ i. i < 8) n }
    ensures { result ≡ balance U.tables.bits u (pick p s) (pick n s) }
{
    let a = s[n[0]];
    let b = s[n[1]];
    let c = s[n[2]];
    let d = s[n[3]];
    let e = s[n[4]];
    let f = s[p[0]];
    let g = s[p[1]];
    let less = u.wrapping_sub(e).wrapping_sub(d).wrapping_sub(c);
    let rest = less.wrapping_sub(b).wrapping_sub(a);
    rest.wrapping_add(g).wrapping_add(f)
}

// `u` less the three words of `s` with the numbers in `n`.
fn less_three<U: Width>(u: Word<U>, s: [Word<U>; 8], n: [usize; 3]) -> Word<U>
    requires { All (λ i. i < 8) n }
    ensures { result ≡ balance U.tables.bits u [] (pick n s) }
{
    u.wrapping_sub(s[n[2]])
        .wrapping_sub(s[n[1]])
        .wrapping_sub(s[n[0]])
}

// Two fifths of the sum of all words.
fn two_fifths<U: Width>(s: [Word<U>; 8]) -> Word<U>
    ensures { result ≡ two_fifths U.tables.bits s }
{
    let four = s[4].wrapping_add(s[5].wrapping_add(s[6].wrapping_add(s[7])));
    let three = s[1].wrapping_add(s[2].wrapping_add(s[3].wrapping_add(four)));
    let all = s[0].wrapping_add(three);
    let fifth = Word::from_u8(5).inverse().wrapping_mul(all);
    fifth.wrapping_add(fifth)
}

fn left_unrotated<U: Width>(z: [Word<U>; 8]) -> [Word<U>; 8]
    ensures { result ≡ unrotated_sums U.tables.bits U.tables.left_constant U.tables.left_amounts left_unxors z }
{
    let p = tables::LEFT_UNXORS;
    let r = U::left_amounts();
    let k = U::left_constant();
    let zero: Word<U> = Word::from_u8(0);
    [
        unrotated(z, k, p[0], r[0]),
        unrotated(z, zero, p[1], r[1]),
        unrotated(z, zero, p[2], r[2]),
        unrotated(z, zero, p[3], r[3]),
        unrotated(z, zero, p[4], r[4]),
        unrotated(z, zero, p[5], r[5]),
        unrotated(z, zero, p[6], r[6]),
        unrotated(z, zero, p[7], r[7]),
    ]
}

fn left_unsummed<U: Width>(s: [Word<U>; 8]) -> [Word<U>; 8]
    ensures { result ≡ unsums U.tables.bits left_inverse s }
{
    let p = tables::LEFT_PLUS;
    let n = tables::LEFT_MINUS;
    let u = two_fifths(s);
    [
        unsummed(u, s, p[0], n[0]),
        unsummed(u, s, p[1], n[1]),
        unsummed(u, s, p[2], n[2]),
        unsummed(u, s, p[3], n[3]),
        unsummed(u, s, p[4], n[4]),
        unsummed(u, s, p[5], n[5]),
        unsummed(u, s, p[6], n[6]),
        unsummed(u, s, p[7], n[7]),
    ]
}

// The vector whose left half is `z`.
pub fn left_undone<U: Width>(z: [Word<U>; 8]) -> [Word<U>; 8]
    ensures { result ≡ unleft U.tables z }
{
    left_unsummed(left_unrotated(z))
}

// The right half's square of sums undoes its XOR step.
fn right_unrotated<U: Width>(z: [Word<U>; 8]) -> [Word<U>; 8]
    ensures { result ≡ unrotated_sums U.tables.bits U.tables.right_constant U.tables.right_amounts right_unxors z }
{
    let q = tables::RIGHT_SUMS;
    let r = U::right_amounts();
    let k = U::right_constant();
    let zero: Word<U> = Word::from_u8(0);
    [
        unrotated(z, k, q[0], r[0]),
        unrotated(z, zero, q[1], r[1]),
        unrotated(z, zero, q[2], r[2]),
        unrotated(z, zero, q[3], r[3]),
        unrotated(z, zero, q[4], r[4]),
        unrotated(z, zero, q[5], r[5]),
        unrotated(z, zero, q[6], r[6]),
        unrotated(z, zero, q[7], r[7]),
    ]
}

// The sums taken away are those that the square of sums leaves out.
fn right_unsummed<U: Width>(s: [Word<U>; 8]) -> [Word<U>; 8]
    ensures { result ≡ unsums U.tables.bits right_inverse s }
{
    let q = tables::RIGHT_XORS;
    let u = two_fifths(s);
    [
        less_three(u, s, q[0]),
        less_three(u, s, q[1]),
        less_three(u, s, q[2]),
        less_three(u, s, q[3]),
        less_three(u, s, q[4]),
        less_three(u, s, q[5]),
        less_three(u, s, q[6]),
        less_three(u, s, q[7]),
    ]
}

// The vector whose right half is `z`.
pub fn right_undone<U: Width>(z: [Word<U>; 8]) -> [Word<U>; 8]
    ensures { result ≡ unright U.tables z }
{
    right_unsummed(right_unrotated(z))
}
