// One block's step, and all whole blocks; and a pipe in lent bytes, a block forward and back.
#![tactic(auto)]

ghost use Rattle.std.specs.Prelude.{◌≡◌, ◌*◌, ◌++◌, ◌≤◌, length, drop};
ghost use Rattle.digest.specs.Blocks.{compressed, last_bytes};
ghost use Rattle.digest.specs.Pipe.{written};
ghost use Rattle.digest.specs.Step.{step};
ghost use Rattle.invertible.specs.RoundTrip.{Forward, Backward};
ghost use Rattle.pipe.specs.Backward.{step_back};
ghost use Rattle.pipe.specs.Call.{pipe_in, moved_bytes};

use compression::Pipe;
use lent_words::LentWord;
use tables::Width;

// The sixteen words of `b`, of a pipe or of a block, whose halves are in the same form.
fn load<U: Width + LentWord>(b: &[u8]) -> Pipe<U>
    requires { length b.now ≡ 16 * U.BYTES }
    ensures { result ≡ pipe_in U.tables b.now }
{
    let first = lent_words::load_vector(b);
    let second = lent_words::load_vector(&b[8 * U::BYTES..]);
    Pipe { first, second }
}

// The sixteen words of `p`, as all of `b`.
fn store<U: Width + LentWord>(b: &mut [u8], p: Pipe<U>)
    requires { length b.old ≡ 16 * U.BYTES }
    ensures { b.new ≡ written U.BYTES p }
{
    let first = p.first;
    let second = p.second;
    lent_words::store_vector(b, first);
    lent_words::store_vector(&mut b[8 * U::BYTES..], second);
}

// The pipe after the block `m`.
pub fn step<U: Width + LentWord>(p: Pipe<U>, m: &[u8]) -> Pipe<U>
    requires { length m.now ≡ 16 * U.BYTES }
    ensures { result ≡ step U.tables p m.now }
{
    let b = load(m);
    let x = b.first;
    let y = b.second;
    compression::forward(p, x, y)
}

// The pipe before the block `m`.
fn step_back<U: Width + LentWord>(p: Pipe<U>, m: &[u8]) -> Pipe<U>
    requires { length m.now ≡ 16 * U.BYTES }
    ensures { result ≡ step_back U.tables p m.now }
{
    let b = load(m);
    let x = b.first;
    let y = b.second;
    compression::backward(p, x, y)
}

// The pipe in `b` after the block `m`, in its place, and as words.
pub fn step_in<U: Width + LentWord>(b: &mut [u8], m: &[u8]) -> Pipe<U>
    requires { (length b.old ≡ 16 * U.BYTES) × (length m.now ≡ 16 * U.BYTES) }
    ensures words { b.new ≡ written U.BYTES result }
    ensures moved { b.new ≡ moved_bytes U.tables Forward m.now b.old }
{
    let p = step(load(b), m);
    store(b, p);
    p
}

// The pipe in `b` before the block `m`, in its place, and as words.
pub fn step_back_in<U: Width + LentWord>(b: &mut [u8], m: &[u8]) -> Pipe<U>
    requires { (length b.old ≡ 16 * U.BYTES) × (length m.now ≡ 16 * U.BYTES) }
    ensures words { b.new ≡ written U.BYTES result }
    ensures moved { b.new ≡ moved_bytes U.tables Backward m.now b.old }
{
    let p = step_back(load(b), m);
    store(b, p);
    p
}

// The pipe after all whole blocks of `s`, which are taken straight from it.
pub fn steps<U: Width + LentWord>(p: Pipe<U>, s: &[u8]) -> Pipe<U>
    ensures { result ≡ compressed (16 * U.BYTES) (step U.tables) p s.now }
{
    let mut q = p;
    for m in s.chunks_exact(16 * U::BYTES) {
        q = step(q, m);
    }
    q
}

// The last `n` bytes of a pipe written out, to the start of `out`; they all stand in its second vector.
pub fn write<U: Width + LentWord>(p: Pipe<U>, n: usize, out: &mut [u8])
    requires { (n ≤ 8 * U.BYTES) × (n ≤ length out.old) }
    ensures { out.new ≡ last_bytes n (written U.BYTES p) ++ drop n out.old }
{
    let mut b = [0u8; 64];
    let v = p.second;
    lent_words::store_vector(&mut b, v);
    let end = 8 * U::BYTES;
    let from = end - n;
    memory::copy_at(out, 0, &b[from..end]);
}
