// The calls on keyed digests: one makes a tag, the other compares one. Document 02's word for a tag is "mark".
#![tactic(auto)]

ghost use Rattle.std.specs.Prelude.{◌≡◌, ◌++◌, ◌/◌, ◌≤◌, length, drop};
ghost use Rattle.digest.specs.Kind.{Known};
ghost use Rattle.hmac.specs.Hmac.{hmac_for};
ghost use Rattle.hmac.specs.Calls.{hmac_answer, hmac_out, verify_answer};
ghost use Rattle.hmac.specs.Refusals.{Fitting};

use answer::Answer;

// The inner pad and the outer pad of FIPS 198-1.
const INNER: u8 = 0x36;

const OUTER: u8 = 0x5c;

// FIPS 198-1: the digest of the outer block and then of the inner digest, that of the inner block and then of the message.
fn write_tag(size: u32, key: &[u8], message: &[u8], out: &mut [u8])
    requires { Known size × Fitting size (length key.now) (length message.now) × (size / 8 ≤ length out.old) }
    ensures { out.new ≡ hmac_for size key.now message.now ++ drop (size / 8) out.old }
{
    let block = hmac_check::block_length(size);
    let bytes = (size / 8) as usize;
    let k = hmac_key::key_block(size, block, key);
    let inner = hmac_key::padded(k, INNER);
    let outer = hmac_key::padded(k, OUTER);
    let mut digest = [0u8; 64];
    let _ = two_parts::digest(size, &inner[..block], message, &mut digest);
    let _ = two_parts::digest(size, &outer[..block], &digest[..bytes], out);
}

// The tag of `message` under `key`, of `size` bits, to the start of `out`; what stands behind it in `out` stays.
pub fn hmac(size: u32, key: &[u8], message: &[u8], out: &mut [u8]) -> Answer
    ensures value { result ≡ hmac_answer size (length key.now) (length message.now) (length out.old) }
    ensures out_after { out.new ≡ hmac_out size key.now message.now out.old }
{
    let written = hmac_check::making(size, key.len(), message.len(), out.len())?;
    write_tag(size, key, message, out);
    Ok(written)
}

// Whether `tag` is that tag: 1, which is yes, or 0.
pub fn verify(size: u32, key: &[u8], message: &[u8], tag: &[u8]) -> Answer
    ensures { result ≡ verify_answer size key.now message.now tag.now }
{
    hmac_check::keying(size, key.len(), message.len())?;
    let mut expected = [0u8; 64];
    write_tag(size, key, message, &mut expected);
    let bytes = (size / 8) as usize;
    Ok(equality::same(tag, &expected[..bytes]) as u64)
}
