// A key as one block, and that block with a pad.
#![tactic(auto)]

ghost use Rattle.std.specs.Prelude.{◌≡◌, ◌≤◌, length, take, replicate};
ghost use Rattle.digest.specs.Refusals.{limit};
ghost use Rattle.digest.specs.Kind.{Known};
ghost use Rattle.hmac.specs.Hmac.{xored, block_for};
ghost use Rattle.hmac.specs.KeyBlock.{key_block_for};

// K0 of FIPS 198-1, in the first bytes of an array that has room for a block of either kind: the key, or the digest of a key that is longer than a block, with
// zeros behind it.
pub fn key_block(size: u32, block: usize, key: &[u8]) -> [u8; 128]
    requires { Known size × (block ≡ block_for size) × (length key.now ≤ limit) }
    ensures { take (block_for size) result ≡ key_block_for size key.now }
{
    let mut k = [0u8; 128];
    if key.len() <= block {
        memory::copy_at(&mut k, 0, key);
        return k;
    }
    let bytes = (size / 8) as usize;
    let mut digest = [0u8; 64];
    let _ = one_call::digest(size, key, &mut digest);
    memory::copy_at(&mut k, 0, &digest[..bytes]);
    k
}

// Each byte by exclusive or with `pad`.
pub fn padded(mut k: [u8; 128], pad: u8) -> [u8; 128]
    ensures { result ≡ xored k (replicate 128 pad) }
{
    for byte in &mut k {
        *byte ^= pad;
    }
    k
}
