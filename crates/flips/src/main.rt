// Document 02's Paper 14 as a program, run here on three records; tests/flips_test runs it over other files. What stands in a file or reaches the output no
// contract can say; what is printed for the bytes that were read is the crate `distance_report`'s to say.
#![tactic(auto)]

use std::io;
use std::rt::Files;

// Prints the report on the records in the file pairs.bin. A file that cannot be opened counts as empty. One byte more than records may have is read, so that
// a longer file is seen and refused.
fn print_file(rt: &(impl Files + Print)) -> io::Result<()> {
    let mut records = [0u8; 65537];
    let n = input::read_file(rt, "pairs.bin", &mut records)?;
    let mut text = [0u8; distance_report::LONGEST_TEXT];
    let end = distance_report::report(&records[..n], &mut text);
    rt.write_all(&text[..end])
}

fn main(rt: HostRuntime) -> io::Result<()> {
    print_file(&rt)
}
