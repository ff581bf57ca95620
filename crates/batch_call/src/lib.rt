// The digests of many messages in one call.
#![tactic(auto)]

ghost use Rattle.std.specs.Prelude.{◌≡◌, ◌++◌, ◌≤◌, length, drop};
ghost use Rattle.memory.specs.Lists.{total};
ghost use Rattle.digest.specs.Kind.{Known};
ghost use Rattle.batch.specs.Batch.{messages, digests, digests_length, batch_answer, batch_out};

use answer::Answer;

// The digest of each message, to its place in `out`: the one call is lent the part of `out` that starts there.
fn digest_each(size: u32, joined: &[u8], lengths: &[u32], out: &mut [u8])
    requires { let ns = lengths.now in
        Known size × (total ns ≡ length joined.now) × (digests_length size (length ns) ≤ length out.old) }
    ensures { let ns = lengths.now in
        out.new ≡ digests size (messages joined.now ns) ++ drop (digests_length size (length ns)) out.old }
{
    let bytes = (size / 8) as usize;
    let mut from: usize = 0;
    for (k, length) in lengths.iter().enumerate() {
        let to = from + *length as usize;
        let at = k * bytes;
        let _ = one_call::digest(size, &joined[from..to], &mut out[at..]);
        from = to;
    }
}

// The digests of `size` bits of all messages to the start of `out`, one behind the other; what stands behind them in `out` stays.
pub fn digests(size: u32, joined: &[u8], lengths: &[u32], out: &mut [u8]) -> Answer
    ensures value { result ≡ batch_answer size (length joined.now) lengths.now (length out.old) }
    ensures out_after { out.new ≡ batch_out size joined.now lengths.now out.old }
{
    let written = batch_check::answer_for(size, joined.len(), lengths, out.len())?;
    digest_each(size, joined, lengths, out);
    Ok(written)
}
