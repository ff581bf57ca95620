// The digest of a message that stands in two parts: a hash in progress is fed the one and then the other, so that neither is copied.
#![tactic(auto)]

ghost use Rattle.std.specs.Prelude.{◌≡◌, ◌++◌, ◌*◌};
ghost use Rattle.digest.specs.OneCall.{digest_answer, digest_out, one_call_answer, one_call_out};

use answer::Answer;
use hash::Kind;

// What the one call answers and writes for `first` and then `second`, for the sizes of one kind.
fn digest_of_kind<U: Kind, const BLOCK: usize>(
    size: u32,
    first: &[u8],
    second: &[u8],
    out: &mut [u8],
) -> Answer
    requires { BLOCK ≡ 16 * U.BYTES }
    ensures value { result ≡ digest_answer U.kind size (first.now ++ second.now) out.old }
    ensures out_after { out.new ≡ digest_out U.kind size (first.now ++ second.now) out.old }
{
    let opened = hash::open::<U, BLOCK>(size);
    opened.answer?;
    let begun = hash::feed(opened.state, first);
    begun.answer?;
    let fed = hash::feed(begun.state, second);
    fed.answer?;
    hash::finish(fed.state, 0, 0, out)
}

// The same for the four sizes.
pub fn digest(size: u32, first: &[u8], second: &[u8], out: &mut [u8]) -> Answer
    ensures value { result ≡ one_call_answer size (first.now ++ second.now) out.old }
    ensures out_after { out.new ≡ one_call_out size (first.now ++ second.now) out.old }
{
    if refusal::is_size(384, 512, size as u64) {
        return digest_of_kind::<u64, 128>(size, first, second, out);
    }
    digest_of_kind::<u32, 64>(size, first, second, out)
}
