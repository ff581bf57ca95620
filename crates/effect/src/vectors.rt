// The effect of a command on vectors in lent bytes, over the word's type.
ghost use Rattle.std.specs.Prelude.{◌≡◌, ◌+◌, ◌*◌, ◌<◌, ◌≤◌, length, set};
ghost use Rattle.quasigroup.specs.Product.{product};
ghost use Rattle.quasigroup.specs.Division.{left_division, right_division};
ghost use Rattle.quasigroup.specs.Vector.{reversed};
ghost use Rattle.sheet.specs.Read.{place_count};
ghost use Rattle.sheet.specs.Effect.{vector_at, effect};
ghost use Rattle.sheet.specs.Effect.{at as place};
ghost use Rattle.sheet.specs.Run.{vectors_in};
ghost use Rattle.sheet.specs.Sound.{SoundCommand};

use division::{left, right};
use half::{left_half, right_half};
use lent_words::{LentWord, load_vector, store_vector};
use product::{joined, reversed};
use sheet::Command;
use tables::Width;
use word::Word;

// The vector whose bytes stand at `at`.
fn vector_at<U: Width + LentWord>(s: &[u8], at: usize) -> [Word<U>; 8]
    requires { at + U.width ≤ length s.now }
    ensures { result ≡ vector_at U.width s.now at }
{
    load_vector(&s[at..])
}

// The vector at place `i`.
fn get<U: Width + LentWord>(vectors: &[u8], i: usize) -> [Word<U>; 8]
    requires { (length vectors.now ≡ place_count * U.width) × (i < place_count) }
    ensures { result ≡ place (vectors_in U.width vectors.now) i }
{
    vector_at(vectors, i * (8 * U::BYTES))
}

// `x` as the vector at place `i`.
fn put<U: Width + LentWord>(vectors: &mut [u8], i: usize, x: [Word<U>; 8])
    requires { (length vectors.old ≡ place_count * U.width) × (i < place_count) }
    ensures { vectors_in U.width vectors.new ≡ set (vectors_in U.width vectors.old) i x }
{
    let at = i * (8 * U::BYTES);
    store_vector(&mut vectors[at..], x);
}

// The vector at place `d` becomes the product of those at places `i` and `j`. The product is made of its halves here and not called, so that
// its words go straight into the lent bytes: through memory and back they would cost as much as the product itself.
fn multiply_places<U: Width + LentWord>(vectors: &mut [u8], d: usize, i: usize, j: usize)
    requires { (length vectors.old ≡ place_count * U.width) × (d < place_count) × (i < place_count) × (j < place_count) }
    ensures { let v = vectors_in U.width vectors.old in
        vectors_in U.width vectors.new ≡ set v d (product U.tables (place v i) (place v j)) }
{
    let x = get::<U>(vectors, i);
    let y = get(vectors, j);
    put(vectors, d, joined(left_half(x), right_half(y)));
}

// The vector at place `d` becomes its product with the vector at offset `k` of the sheet, that one first; made of its halves as above.
fn multiply_by<U: Width + LentWord>(vectors: &mut [u8], d: usize, sheet: &[u8], k: usize)
    requires { (length vectors.old ≡ place_count * U.width) × (d < place_count) × (k + U.width ≤ length sheet.now) }
    ensures { let v = vectors_in U.width vectors.old in
        vectors_in U.width vectors.new ≡ set v d (product U.tables (vector_at U.width sheet.now k) (place v d)) }
{
    let x = vector_at::<U>(sheet, k);
    let y = get(vectors, d);
    put(vectors, d, joined(left_half(x), right_half(y)));
}

// The vector at place `d` is divided by the one at place `s` from the left.
fn divide_left<U: Width + LentWord>(vectors: &mut [u8], d: usize, s: usize)
    requires { (length vectors.old ≡ place_count * U.width) × (d < place_count) × (s < place_count) }
    ensures { let v = vectors_in U.width vectors.old in
        vectors_in U.width vectors.new ≡ set v d (left_division U.tables (place v s) (place v d)) }
{
    let a = get::<U>(vectors, s);
    let b = get(vectors, d);
    put(vectors, d, left::divide(a, b));
}

// The vector at place `d` is divided by the one at place `s` from the right.
fn divide_right<U: Width + LentWord>(vectors: &mut [u8], d: usize, s: usize)
    requires { (length vectors.old ≡ place_count * U.width) × (d < place_count) × (s < place_count) }
    ensures { let v = vectors_in U.width vectors.old in
        vectors_in U.width vectors.new ≡ set v d (right_division U.tables (place v d) (place v s)) }
{
    let b = get::<U>(vectors, d);
    let a = get(vectors, s);
    put(vectors, d, right::divide(b, a));
}

// The vector at place `d` is divided by the vector at offset `k` of the sheet from the left.
fn divide_by<U: Width + LentWord>(vectors: &mut [u8], d: usize, sheet: &[u8], k: usize)
    requires { (length vectors.old ≡ place_count * U.width) × (d < place_count) × (k + U.width ≤ length sheet.now) }
    ensures { let v = vectors_in U.width vectors.old in
        vectors_in U.width vectors.new ≡ set v d (left_division U.tables (vector_at U.width sheet.now k) (place v d)) }
{
    let a = vector_at::<U>(sheet, k);
    let b = get(vectors, d);
    put(vectors, d, left::divide(a, b));
}

// The vectors at places `d` and `s` change over.
fn swap<U: Width + LentWord>(vectors: &mut [u8], d: usize, s: usize)
    requires { (length vectors.old ≡ place_count * U.width) × (d < place_count) × (s < place_count) }
    ensures { let v = vectors_in U.width vectors.old in
        vectors_in U.width vectors.new ≡ set (set v d (place v s)) s (place v d) }
{
    let x = get::<U>(vectors, d);
    put::<U>(vectors, d, get(vectors, s));
    put(vectors, s, x);
}

// The words of the vector at place `d` in reverse order.
fn flip<U: Width + LentWord>(vectors: &mut [u8], d: usize)
    requires { (length vectors.old ≡ place_count * U.width) × (d < place_count) }
    ensures { let v = vectors_in U.width vectors.old in
        vectors_in U.width vectors.new ≡ set v d (reversed (place v d)) }
{
    put::<U>(vectors, d, reversed(get(vectors, d)));
}

// The vectors after a command.
pub fn apply<U: Width + LentWord>(sheet: &[u8], c: Command, vectors: &mut [u8])
    requires { (length vectors.old ≡ place_count * U.width) × SoundCommand U.width (length sheet.now) c }
    ensures { vectors_in U.width vectors.new ≡ effect U.width sheet.now c (vectors_in U.width vectors.old) }
{
    match c {
        Command::Lmul(p) => multiply_places::<U>(vectors, p.d, p.s, p.d),
        Command::Rmul(p) => multiply_places::<U>(vectors, p.d, p.d, p.s),
        Command::Ldiv(p) => divide_left::<U>(vectors, p.d, p.s),
        Command::Rdiv(p) => divide_right::<U>(vectors, p.d, p.s),
        Command::Swap(p) => swap::<U>(vectors, p.d, p.s),
        Command::Flip(d) => flip::<U>(vectors, d),
        Command::Kmul(d, k) => multiply_by::<U>(vectors, d, sheet, k),
        Command::Kdiv(d, k) => divide_by::<U>(vectors, d, sheet, k),
    }
}
