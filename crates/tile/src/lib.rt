// A tile: 128 bytes of a record, by value. It is loaded from rows that stand apart, transposed, and stored to rows that stand apart. Rows
// are moved side by side, a byte of each and then the next, so that the compiler takes sixteen bytes of every row together.
#![tactic(auto)]

ghost use Rattle.std.specs.Prelude.{◌≡◌, ◌*◌, ◌-◌, ◌^◌, ◌≤◌, length};
ghost use Rattle.shuffle.specs.Transposed.{transposed};
ghost use Rattle.tile.specs.Copy.{Inside, zeros, strided_copy, rows_copy};

// Copies `k` bytes of `s` from `i` on, `d` apart, into `out` from `o` on, `e` apart.
fn copy_strided(out: &mut [u8], o: usize, e: usize, s: &[u8], i: usize, d: usize, k: usize)
    requires { Inside k 1 o e (length out.old) × Inside k 1 i d (length s.now) }
    ensures { out.new ≡ strided_copy k s.now i d out.old o e }
{
    for j in 0..k {
        out[o + j * e] = s[i + j * d];
    }
}

// The tile of `k` rows of `q` bytes each, those of `s` from `i` on, `d` apart.
pub fn load(s: &[u8], i: usize, d: usize, k: usize, q: usize) -> [u8; 128]
    requires { (k * q ≡ 128) × Inside k q i d (length s.now) }
    ensures { result ≡ rows_copy k q s.now i d (zeros 128) 0 q }
{
    let mut r = [0u8; 128];
    for n in 0..q {
        copy_strided(&mut r, n, q, s, i + n, d, k);
    }
    r
}

// The bytes of both halves in turn.
fn interleave(x: [u8; 128]) -> [u8; 128]
    ensures { result ≡ transposed 2 64 x }
{
    let mut r = [0u8; 128];
    for n in 0..64 {
        r[2 * n] = x[n];
        r[2 * n + 1] = x[n + 64];
    }
    r
}

// The transpose of `2 ^ times` rows. The halves of a transpose, interleaved, are the transpose of twice as many rows of half the length.
pub fn transpose(x: [u8; 128], times: usize) -> [u8; 128]
    requires { times ≤ 7 }
    ensures { result ≡ transposed (2 ^ times) (2 ^ (7 - times)) x }
{
    let mut r = x;
    for _ in 0..times {
        let next = interleave(r);
        r = next;
    }
    r
}

// The `k` rows of `q` bytes each of the tile `x` to `out` from `o` on, `e` apart.
pub fn store(out: &mut [u8], o: usize, e: usize, x: [u8; 128], k: usize, q: usize)
    requires { (k * q ≡ 128) × Inside k q o e (length out.old) }
    ensures { out.new ≡ rows_copy k q x 0 q out.old o e }
{
    for n in 0..q {
        copy_strided(out, o + n, e, &x, n, q, k);
    }
}
