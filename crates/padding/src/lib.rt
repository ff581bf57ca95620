// The end of a padded message, for both kinds: the byte in which it ends, its length in bits, and the last blocks.
#![tactic(auto)]

ghost use Rattle.std.specs.Prelude.{◌≡◌, ◌++◌, ◌+◌, ◌*◌, ◌^◌, ◌<◌, ◌≤◌, length, take, replicate};
ghost use Rattle.digest.specs.Padding.{ending, marked};

use lent_words::LentWord;

// At the start of `buf`, which is zeros: the pending bytes `w`, the byte of the one bit, zeros and the length in bits. The answer is how many
// bytes that is, one block or two.
pub fn tail(buf: &mut [u8], w: &[u8], block: usize, mark: u8, bits: u64) -> usize
    requires { (9 ≤ block) × (length w.now < block) × (block + block ≤ length buf.old) × (buf.old ≡ replicate (length buf.old) 0) }
    ensures { (result ≤ length buf.new) × (take result buf.new ≡ w.now ++ ending block (length w.now) mark bits) }
{
    let m = [mark];
    memory::copy_at(buf, 0, w);
    memory::copy_at(buf, w.len(), &m);
    if w.len() + 9 <= block {
        let at = block - 8;
        bits.store(buf, at);
        return block;
    }
    let size = block + block;
    bits.store(buf, size - 8);
    size
}

// The byte of the one bit, where a message ends with the `count` highest bits of `last`: these, the one bit, and zeros. `down` bits of `last` are shifted out,
// and `rest` zeros follow the one bit.
pub fn marked(last: u8, count: u32) -> u8
    requires { count ≤ 7 }
    ensures { result ≡ marked last count }
{
    let down = 8 - count;
    let rest = 7 - count;
    let high = (last as u32) >> down;
    let kept = high << down;
    let one = 1u32 << rest;
    (kept | one) as u8
}

// The length in bits of `total` bytes and `count` bits behind them.
pub fn bit_length(total: u64, count: u32) -> u64
    requires { 8 * total + count < 2 ^ 64 }
    ensures { result ≡ 8 * total + count }
{
    8 * total + count as u64
}
