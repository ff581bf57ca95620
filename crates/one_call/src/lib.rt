// The digest of a whole message in one call, for the four sizes.
#![tactic(auto)]

ghost use Rattle.std.specs.Prelude.{◌≡◌};
ghost use Rattle.digest.specs.OneCall.{one_call_answer, one_call_out};

use answer::Answer;

// The digest of `message`, `size` bits, to the start of `out`; what stands behind it in `out` stays.
pub fn digest(size: u32, message: &[u8], out: &mut [u8]) -> Answer
    ensures value { result ≡ one_call_answer size message.now out.old }
    ensures out_after { out.new ≡ one_call_out size message.now out.old }
{
    if refusal::is_size(384, 512, size as u64) {
        return wide::digest(size, message, out);
    }
    narrow::digest(size, message, out)
}
