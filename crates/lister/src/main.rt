// Document 01's lister, run here on document 01's example; tests/lister_test runs it over other files. What stands in a file or reaches the
// output no contract can say; what is printed for the bytes that were read is the crate `listing`'s to say.
#![tactic(auto)]

use std::io;
use std::rt::Files;

// Prints the listing of the sheet in the file sheet.bin at width 32. A file that cannot be opened counts as empty.
// One byte more than a sheet may have is read, so that a longer file is seen and refused.
fn print_file(rt: &(impl Files + Print)) -> io::Result<()> {
    let mut sheet = [0u8; 4097];
    let n = input::read_file(rt, "sheet.bin", &mut sheet)?;
    let mut text = [0u8; listing::LONGEST_TEXT];
    let end = listing::list(32, &sheet[..n], &mut text);
    rt.write_all(&text[..end])
}

fn main(rt: HostRuntime) -> io::Result<()> {
    print_file(&rt)
}
