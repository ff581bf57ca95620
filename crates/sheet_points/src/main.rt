// The points on sheets that are run. Document 01's at width 32: a K of 31 bytes and one of 32, 4,097 bytes. Document 02's, Paper 3: one flip, and
// 2,048 of them, which count nothing. Then, at both widths, a sheet with every command, forward and backward again: of its eight, six count.
#![tactic(auto)]

ghost use Rattle.std.specs.Prelude.{◌≡◌, length};

use answer::Answer;
use std::io;

fn print_answer(rt: &impl Print, a: Answer) -> io::Result<()> {
    match a {
        Ok(n) => {
            rt.write_all(b"done ")?;
            rt.print(n)?;
        }
        Err(e) => {
            rt.write_all(b"refused ")?;
            rt.print(answer::refusal_number(e.refusal))?;
            rt.write_all(b" ")?;
            rt.print(e.offset as u64)?;
        }
    }
    rt.write_all(b"\n")
}

// A forward run at width 32 over vectors of zeros.
fn print_run(rt: &impl Print, name: &[u8], sheet: &[u8]) -> io::Result<()> {
    rt.write_all(name)?;
    rt.write_all(b": ")?;
    let mut vectors = [0u8; 256];
    print_answer(rt, run::run_forward(32, &mut vectors, sheet))
}

// 06 00, as often as a sheet holds it.
fn flips() -> [u8; 4096]
    ensures { 4096 ≡ length result }
{
    let mut sheet = [0u8; 4096];
    for i in 0..2048 {
        sheet[2 * i] = 6;
    }
    sheet
}

// A command of each kind at width 32, and at width 64; every place is changed by one of them.
const NARROW: [u8; 85] = [
    1, 0, 1, 2, 2, 3, 3, 4, 5, 4, 6, 7, 5, 0, 7, 6, 3, 7, 5, 1, 8, 15, 22, 29, 36, 43, 50, 57, 64,
    71, 78, 85, 92, 99, 106, 113, 120, 127, 134, 141, 148, 155, 162, 169, 176, 183, 190, 197, 204,
    211, 218, 8, 1, 2, 7, 12, 17, 22, 27, 32, 37, 42, 47, 52, 57, 62, 67, 72, 77, 82, 87, 92, 97,
    102, 107, 112, 117, 122, 127, 132, 137, 142, 147, 152, 157,
];

const WIDE: [u8; 149] = [
    1, 0, 1, 2, 2, 3, 3, 4, 5, 4, 6, 7, 5, 0, 7, 6, 3, 7, 5, 1, 8, 15, 22, 29, 36, 43, 50, 57, 64,
    71, 78, 85, 92, 99, 106, 113, 120, 127, 134, 141, 148, 155, 162, 169, 176, 183, 190, 197, 204,
    211, 218, 225, 232, 239, 246, 253, 4, 11, 18, 25, 32, 39, 46, 53, 60, 67, 74, 81, 88, 95, 102,
    109, 116, 123, 130, 137, 144, 151, 158, 165, 172, 179, 186, 8, 1, 2, 7, 12, 17, 22, 27, 32, 37,
    42, 47, 52, 57, 62, 67, 72, 77, 82, 87, 92, 97, 102, 107, 112, 117, 122, 127, 132, 137, 142,
    147, 152, 157, 162, 167, 172, 177, 182, 187, 192, 197, 202, 207, 212, 217, 222, 227, 232, 237,
    242, 247, 252, 1, 6, 11, 16, 21, 26, 31, 36, 41, 46, 51, 56, 61,
];

fn print_same(rt: &impl Print, a: &[u8], b: &[u8]) -> io::Result<()> {
    if a == b {
        rt.write_all(b"the starting bytes\n")
    } else {
        rt.write_all(b"other bytes\n")
    }
}

// A sheet forward and backward, with what each run answers and leaves; `vectors` are those of `start`.
fn print_round(
    rt: &impl Print,
    width: u32,
    sheet: &[u8],
    start: &[u8],
    vectors: &mut [u8],
) -> io::Result<()> {
    rt.write_all(b"there and back at width ")?;
    rt.print(width as u64)?;
    rt.write_all(b":\n")?;
    print_answer(rt, run::run_forward(width, vectors, sheet))?;
    print_same(rt, start, vectors)?;
    print_answer(rt, run::run_backward(width, vectors, sheet))?;
    print_same(rt, start, vectors)
}

fn narrow_round(rt: &impl Print) -> io::Result<()> {
    let mut start = [7u8; 256];
    start[0] = 1;
    start[33] = 2;
    start[66] = 3;
    start[99] = 4;
    start[132] = 5;
    start[165] = 6;
    start[198] = 8;
    start[231] = 9;
    let mut vectors = start;
    print_round(rt, 32, &NARROW, &start, &mut vectors)
}

fn wide_round(rt: &impl Print) -> io::Result<()> {
    let mut start = [7u8; 512];
    start[0] = 1;
    start[65] = 2;
    start[130] = 3;
    start[195] = 4;
    start[260] = 5;
    start[325] = 6;
    start[390] = 8;
    start[455] = 9;
    let mut vectors = start;
    print_round(rt, 64, &WIDE, &start, &mut vectors)
}

fn main(rt: HostRuntime) -> io::Result<()> {
    let mut cut = [1u8; 33];
    cut[0] = 7;
    cut[1] = 0;
    print_run(&rt, b"K of 31 bytes", &cut)?;
    let mut whole = [1u8; 34];
    whole[0] = 7;
    whole[1] = 0;
    print_run(&rt, b"K of 32 bytes", &whole)?;
    print_run(&rt, b"one flip", &[6u8, 0])?;
    print_run(&rt, b"2,048 flips", &flips())?;
    print_run(&rt, b"4,097 bytes", &[6u8; 4097])?;
    narrow_round(&rt)?;
    wide_round(&rt)
}
