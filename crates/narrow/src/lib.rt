// The narrow kind of hash, of 224 and 256 bits, as C has it: a hash in progress, and the digest of a whole message.
#![tactic(auto)]

ghost use Rattle.std.specs.Prelude.{◌≡◌};
ghost use Rattle.digest.specs.Kind.{narrow_kind};
ghost use Rattle.digest.specs.State.{finish_bits_answer, finish_bits_out};
ghost use Rattle.digest.specs.OneCall.{digest_answer, digest_out};
ghost use Rattle.narrow.specs.Outcomes.{hash_of, narrow_of, opened, fed};

use answer::Answer;
use compression::Pipe;
use hash::Hash;

// The pipe: words 0 to 7 and words 8 to 15.
#[repr(C)]
#[derive(Clone, Copy)]
pub struct Pipe32 {
    pub first: [u32; 8],
    pub second: [u32; 8],
}

// A hash in progress. Of `waiting` the first `total` modulo 64 bytes are waiting, which is document 01's word: fed, and not yet part of a block.
// `size` has 64 bits so that C's layout has no padding, and these fields are every byte of the struct.
#[repr(C)]
#[derive(Clone, Copy)]
pub struct Narrow {
    pub size: u64,
    pub pipe: Pipe32,
    pub waiting: [u8; 64],
    pub total: u64,
}

#[derive(Clone, Copy)]
pub struct Outcome {
    pub answer: Answer,
    pub state: Narrow,
}

impl From<Narrow> for Hash<u32, 64> {
    ghost from_gives = { λ h r. r ≡ hash_of h };

    fn from(h: Narrow) -> Hash<u32, 64> {
        let p = h.pipe;
        let first = p.first;
        let second = p.second;
        let waiting = h.waiting;
        Hash {
            size: h.size,
            pipe: Pipe {
                first: word::words(first),
                second: word::words(second),
            },
            waiting,
            total: h.total,
        }
    }
}

impl From<Hash<u32, 64>> for Narrow {
    ghost from_gives = { λ h r. r ≡ narrow_of h };

    fn from(h: Hash<u32, 64>) -> Narrow {
        let p = h.pipe;
        let first = p.first;
        let second = p.second;
        let waiting = h.waiting;
        Narrow {
            size: h.size,
            pipe: Pipe32 {
                first: word::bits(first),
                second: word::bits(second),
            },
            waiting,
            total: h.total,
        }
    }
}

// A hash of `size` bits is opened.
pub fn open(size: u32) -> Outcome
    ensures { result ≡ opened size }
{
    let r = hash::open::<u32, 64>(size);
    Outcome {
        answer: r.answer,
        state: Narrow::from(r.state),
    }
}

// `hash` takes `bytes`.
pub fn feed(hash: Narrow, bytes: &[u8]) -> Outcome
    ensures { result ≡ fed hash bytes.now }
{
    let r = hash::feed(Hash::from(hash), bytes);
    Outcome {
        answer: r.answer,
        state: Narrow::from(r.state),
    }
}

// The same for a hash that is lent, and finds itself advanced.
pub fn feed_in(hash: &mut Narrow, bytes: &[u8]) -> Answer
    ensures { (result ≡ (fed hash.old bytes.now).answer)
        × (hash.new ≡ (fed hash.old bytes.now).state) }
{
    let r = feed(*hash, bytes);
    *hash = r.state;
    r.answer
}

// The digest of what was fed and then the `count` highest bits of `last`, to the start of `out`. The caller's state stays as it is, and may be fed further.
pub fn finish(hash: Narrow, last: u8, count: u32, out: &mut [u8]) -> Answer
    ensures value { result ≡ finish_bits_answer narrow_kind (hash_of hash) count out.old }
    ensures out_after { out.new ≡ finish_bits_out narrow_kind (hash_of hash) last count out.old }
{
    hash::finish(Hash::from(hash), last, count, out)
}

// The digest of `message`, to the start of `out`, for this kind's sizes.
pub fn digest(size: u32, message: &[u8], out: &mut [u8]) -> Answer
    ensures value { result ≡ digest_answer narrow_kind size message.now out.old }
    ensures out_after { out.new ≡ digest_out narrow_kind size message.now out.old }
{
    hash::digest::<u32>(size, message, out)
}
