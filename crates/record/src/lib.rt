// One record laid out for the archive, and the way back. It goes by tiles of 128 bytes: `q` words of `k` bytes each.
#![tactic(auto)]

ghost use Rattle.std.specs.Prelude.{◌≡◌, ◌++◌, ◌*◌, ◌-◌, ◌^◌, ◌≤◌, length, drop};
ghost use Rattle.shuffle.specs.Transposed.{transposed};
ghost use Rattle.record.specs.Tiled.{Tiled};

// The record `s`, shuffled, to the start of `out`. The words of a tile are its rows, `2 ^ times` of them; its columns become rows of the record.
pub fn shuffle(s: &[u8], out: &mut [u8], k: usize, q: usize, times: usize)
    requires tiled { Tiled k q × (times ≤ 7) × (q ≡ 2 ^ times) × (k ≡ 2 ^ (7 - times)) }
    requires s_len { (length s.now ≡ 64 * k) × (64 * k ≤ length out.old) }
    ensures { out.new ≡ transposed 64 k s.now ++ drop (64 * k) out.old }
{
    for g in (0..64).step_by(q) {
        let x = tile::load(s, k * g, 128, 1, 128);
        tile::store(out, g, 64, tile::transpose(x, times), k, q);
    }
}

// The shuffled record `s`, as it was, to the start of `out`. The rows of a tile, `2 ^ times` of them, are of rows of the record; its columns are words.
pub fn restore(s: &[u8], out: &mut [u8], k: usize, q: usize, times: usize)
    requires tiled { Tiled k q × (times ≤ 7) × (k ≡ 2 ^ times) × (q ≡ 2 ^ (7 - times)) }
    requires s_len { (length s.now ≡ 64 * k) × (64 * k ≤ length out.old) }
    ensures { out.new ≡ transposed k 64 s.now ++ drop (64 * k) out.old }
{
    for g in (0..64).step_by(q) {
        let x = tile::load(s, g, 64, k, q);
        tile::store(out, k * g, 128, tile::transpose(x, times), 1, 128);
    }
}
