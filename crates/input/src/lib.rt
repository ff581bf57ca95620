// Bytes of a file into a lent array, as many as it has places for.
#![tactic(auto)]

ghost use Rattle.std.specs.Prelude.{◌≤◌, ◌<◌, length, take, IfOk};
ghost use Rattle.std.specs.Io.KnownBytes.{Consumes, IsAtEnd};

use std::io::Read;
use std::rt::Files;
use std::{fs, io};

// What a source gives, from the start of `out` on, until it ends or `out` is full; the answer is the number of bytes. Of the bytes behind them the contract of
// a read says nothing, so none is told.
pub fn read_full<R: Read>(source: &mut R, out: &mut [u8]) -> io::Result<usize>
    ensures within { IfOk result (λ n. n ≤ length out.new) }
    ensures bytes { IfOk result (λ n. Consumes (R.remaining source.old) (R.remaining source.new) (take n out.new)) }
    ensures end { IfOk result (λ n. n < length out.new → IsAtEnd (R.remaining source.new)) }
{
    let mut n = 0;
    for _ in 0..out.len() {
        let k = source.read(&mut out[n..])?;
        if k == 0 {
            break;
        }
        n += k;
    }
    Ok(n)
}

// The same of the file `path`. A file that cannot be opened counts as empty. What a file gives no contract can say.
pub fn read_file<F: Files>(files: &F, path: &str, out: &mut [u8]) -> io::Result<usize>
    ensures { IfOk result (λ n. n ≤ length out.new) }
{
    match fs::open(files, path) {
        Ok(file) => {
            let mut source = file;
            read_full(&mut source, out)
        }
        Err(_) => Ok(0),
    }
}
