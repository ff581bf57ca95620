// Runs document 01's points of the digests and 001's printed HMAC values, and says what came out.
// HMAC is made here, from the digest in one call; the libraries have none.
#![tactic(auto)]

ghost use Rattle.std.specs.Prelude.{◌<◌, ◌≤◌, length};

use answer::Answer;
use narrow::{Narrow, Pipe32};
use refusal::LIMIT;
use std::io;
use wide::{Pipe64, Wide};

fn say(rt: &impl Print, text: &[u8]) -> io::Result<()> {
    rt.write_all(text)
}

fn say_number(rt: &impl Print, n: u64) -> io::Result<()> {
    rt.print(n)
}

fn say_answer(rt: &impl Print, what: &[u8], a: Answer) -> io::Result<()> {
    say(rt, what)?;
    match a {
        Ok(n) => {
            say(rt, b": done, ")?;
            say_number(rt, n)?;
        }
        Err(e) => {
            say(rt, b": refused, ")?;
            say_number(rt, answer::refusal_number(e.refusal))?;
            say(rt, b" at ")?;
            say_number(rt, e.offset as u64)?;
        }
    }
    say(rt, b"\n")
}

// A digit as 001 prints it.
fn hex_digit(x: u8) -> u8
    requires { x < 16 }
{
    if x < 10 {
        return 48 + x;
    }
    55 + x
}

// 1 where byte `i` of `made` is what stands in `printed`, two digits a byte, and else 0.
fn same_at(printed: &[u8], made: &[u8], i: usize) -> u64
    ensures { result ≤ 1 }
{
    if made.len() <= i {
        return 0;
    }
    if printed.len() / 2 <= i {
        return 0;
    }
    let high = 2 * i;
    let low = high + 1;
    if printed[high] != hex_digit(made[i] / 16) {
        return 0;
    }
    if printed[low] != hex_digit(made[i] % 16) {
        return 0;
    }
    1
}

// How many bytes of `printed` were made.
fn agreeing(printed: &[u8], made: &[u8]) -> u64 {
    let mut n = 0;
    for i in 0..printed.len() / 2 {
        n += same_at(printed, made, i);
    }
    n
}

fn say_agreeing(rt: &impl Print, printed: &[u8], made: &[u8]) -> io::Result<()> {
    say_number(rt, agreeing(printed, made))?;
    say(rt, b" of ")?;
    say_number(rt, (printed.len() / 2) as u64)?;
    say(rt, b" bytes agree\n")
}

// Consecutive bytes from `first` on.
fn count_up(out: &mut [u8], first: u8) {
    let mut next = first;
    for byte in out {
        *byte = next;
        next = next.wrapping_add(1);
    }
}

// Each byte of `key` by XOR with `with`, at the start of `out`.
fn mask(key: &[u8], with: u8, out: &mut [u8])
    requires { length key.now ≤ length out.old }
{
    for i in 0..key.len() {
        out[i] = key[i] ^ with;
    }
}

// The key with zeros behind it, or, where it is longer than a block, its digest.
fn key_block(size: u32, block: usize, key: &[u8]) -> [u8; 128]
    requires { block ≤ 128 }
{
    let mut k = [0u8; 128];
    if block < key.len() {
        let _ = one_call::digest(size, key, &mut k);
        return k;
    }
    memory::copy_at(&mut k, 0, key);
    k
}

// FIPS 198-1, for a hash with blocks of `block` bytes and messages of at most 200.
fn hmac(size: u32, block: usize, key: &[u8], message: &[u8], out: &mut [u8])
    requires { (block ≤ 128) × (length message.now ≤ 200) × (size ≤ 512) }
{
    let k = key_block(size, block, key);
    let mut inner = [0u8; 328];
    mask(&k[..block], 0x36, &mut inner);
    memory::copy_at(&mut inner, block, message);
    let inner_end = block + message.len();
    let mut middle = [0u8; 64];
    let _ = one_call::digest(size, &inner[..inner_end], &mut middle);
    let mut outer = [0u8; 192];
    mask(&k[..block], 0x5c, &mut outer);
    let n = (size / 8) as usize;
    memory::copy_at(&mut outer, block, &middle[..n]);
    let outer_end = block + n;
    let _ = one_call::digest(size, &outer[..outer_end], out);
}

// A state that no call made: any size and total.
fn narrow_state(size: u64, total: u64) -> Narrow {
    let pipe = Pipe32 {
        first: [0; 8],
        second: [0; 8],
    };
    Narrow {
        size,
        pipe,
        waiting: [0; 64],
        total,
    }
}

fn narrow_feeding(rt: &impl Print, what: &[u8], state: Narrow, bytes: &[u8]) -> io::Result<()> {
    let o = narrow::feed(state, bytes);
    let a = o.answer;
    say_answer(rt, what, a)
}

fn narrow_opening(rt: &impl Print, what: &[u8], size: u32) -> io::Result<()> {
    let o = narrow::open(size);
    let a = o.answer;
    say_answer(rt, what, a)
}

fn narrow_points(rt: &impl Print) -> io::Result<()> {
    let mut out = [0u8; 32];
    let mut short = [0u8; 31];
    narrow_opening(rt, b"narrow opened with 384", 384)?;
    narrow_opening(rt, b"narrow opened with 256", 256)?;
    let full = narrow_state(256, LIMIT);
    narrow_feeding(rt, b"narrow, total 2^61 - 1, fed one byte", full, b"a")?;
    narrow_feeding(rt, b"narrow, total 2^61 - 1, fed no bytes", full, b"")?;
    narrow_feeding(
        rt,
        b"narrow, total 2^61, fed no bytes",
        narrow_state(256, LIMIT + 1),
        b"",
    )?;
    narrow_feeding(
        rt,
        b"narrow, size 384, fed one byte",
        narrow_state(384, 0),
        b"a",
    )?;
    say_answer(
        rt,
        b"narrow, size 256, finished into 32 bytes",
        narrow::finish(full, 0, 0, &mut out),
    )?;
    say_answer(
        rt,
        b"narrow, size 256, finished into 31 bytes",
        narrow::finish(full, 0, 0, &mut short),
    )?;
    say_answer(
        rt,
        b"narrow, size 384, finished into 31 bytes",
        narrow::finish(narrow_state(384, 0), 0, 0, &mut short),
    )
}

// A message that ends inside a byte: the largest total, and the refusals in their order.
fn narrow_bit_points(rt: &impl Print) -> io::Result<()> {
    let mut out = [0u8; 32];
    let mut short = [0u8; 31];
    let full = narrow_state(256, LIMIT);
    say_answer(
        rt,
        b"narrow, total 2^61 - 1, finished with 7 bits",
        narrow::finish(full, 255, 7, &mut out),
    )?;
    say_answer(
        rt,
        b"narrow, finished with 8 bits",
        narrow::finish(full, 255, 8, &mut out),
    )?;
    say_answer(
        rt,
        b"narrow, finished with 8 bits into 31 bytes",
        narrow::finish(full, 255, 8, &mut short),
    )?;
    say_answer(
        rt,
        b"narrow, finished with 7 bits into 31 bytes",
        narrow::finish(full, 255, 7, &mut short),
    )?;
    say_answer(
        rt,
        b"narrow, size 384, finished with 8 bits",
        narrow::finish(narrow_state(384, 0), 255, 8, &mut short),
    )
}

// 1 where `message`, cut at `at` and fed in two pieces with a finishing between them, has the digest of the one call, and else 0.
fn narrow_cut(message: &[u8], at: usize) -> u64
    requires { at ≤ length message.now }
    ensures { result ≤ 1 }
{
    let mut whole = [0u8; 32];
    let _ = one_call::digest(256, message, &mut whole);
    let mut out = [0u8; 32];
    let o = narrow::open(256);
    let opened = o.state;
    let f = narrow::feed(opened, &message[..at]);
    let first = f.state;
    let _ = narrow::finish(first, 0, 0, &mut out);
    let g = narrow::feed(first, &message[at..]);
    let second = g.state;
    let _ = narrow::finish(second, 0, 0, &mut out);
    if whole == out {
        return 1;
    }
    0
}

fn narrow_cuts(rt: &impl Print, m: &[u8]) -> io::Result<()>
    requires { 200 ≤ length m.now }
{
    let start = narrow_cut(m, 0) + narrow_cut(m, 1) + narrow_cut(m, 63);
    let middle = narrow_cut(m, 64) + narrow_cut(m, 65) + narrow_cut(m, 127);
    let end = narrow_cut(m, 128) + narrow_cut(m, 129) + narrow_cut(m, 200);
    say(rt, b"narrow, a message of 200 bytes cut in two: ")?;
    say_number(rt, start + middle + end)?;
    say(rt, b" of 9 cuts agree\n")
}

// A state that no call made: any size and total.
fn wide_state(size: u64, total: u64) -> Wide {
    let pipe = Pipe64 {
        first: [0; 8],
        second: [0; 8],
    };
    Wide {
        size,
        pipe,
        waiting: [0; 128],
        total,
    }
}

fn wide_feeding(rt: &impl Print, what: &[u8], state: Wide, bytes: &[u8]) -> io::Result<()> {
    let o = wide::feed(state, bytes);
    let a = o.answer;
    say_answer(rt, what, a)
}

fn wide_opening(rt: &impl Print, what: &[u8], size: u32) -> io::Result<()> {
    let o = wide::open(size);
    let a = o.answer;
    say_answer(rt, what, a)
}

fn wide_points(rt: &impl Print) -> io::Result<()> {
    let mut out = [0u8; 64];
    let mut short = [0u8; 63];
    wide_opening(rt, b"wide opened with 256", 256)?;
    wide_opening(rt, b"wide opened with 512", 512)?;
    let full = wide_state(512, LIMIT);
    wide_feeding(rt, b"wide, total 2^61 - 1, fed one byte", full, b"a")?;
    wide_feeding(rt, b"wide, total 2^61 - 1, fed no bytes", full, b"")?;
    wide_feeding(
        rt,
        b"wide, total 2^61, fed no bytes",
        wide_state(512, LIMIT + 1),
        b"",
    )?;
    wide_feeding(
        rt,
        b"wide, size 256, fed one byte",
        wide_state(256, 0),
        b"a",
    )?;
    say_answer(
        rt,
        b"wide, size 512, finished into 64 bytes",
        wide::finish(full, 0, 0, &mut out),
    )?;
    say_answer(
        rt,
        b"wide, size 512, finished into 63 bytes",
        wide::finish(full, 0, 0, &mut short),
    )?;
    say_answer(
        rt,
        b"wide, size 256, finished into 63 bytes",
        wide::finish(wide_state(256, 0), 0, 0, &mut short),
    )
}

// A message that ends inside a byte: the largest total, and the refusals in their order.
fn wide_bit_points(rt: &impl Print) -> io::Result<()> {
    let mut out = [0u8; 64];
    let mut short = [0u8; 63];
    let full = wide_state(512, LIMIT);
    say_answer(
        rt,
        b"wide, total 2^61 - 1, finished with 7 bits",
        wide::finish(full, 255, 7, &mut out),
    )?;
    say_answer(
        rt,
        b"wide, finished with 8 bits",
        wide::finish(full, 255, 8, &mut out),
    )?;
    say_answer(
        rt,
        b"wide, finished with 8 bits into 63 bytes",
        wide::finish(full, 255, 8, &mut short),
    )?;
    say_answer(
        rt,
        b"wide, finished with 7 bits into 63 bytes",
        wide::finish(full, 255, 7, &mut short),
    )?;
    say_answer(
        rt,
        b"wide, size 256, finished with 8 bits",
        wide::finish(wide_state(256, 0), 255, 8, &mut short),
    )
}

// 1 where `message`, cut at `at` and fed in two pieces with a finishing between them, has the digest of the one call, and else 0.
fn wide_cut(message: &[u8], at: usize) -> u64
    requires { at ≤ length message.now }
    ensures { result ≤ 1 }
{
    let mut whole = [0u8; 64];
    let _ = one_call::digest(512, message, &mut whole);
    let mut out = [0u8; 64];
    let o = wide::open(512);
    let opened = o.state;
    let f = wide::feed(opened, &message[..at]);
    let first = f.state;
    let _ = wide::finish(first, 0, 0, &mut out);
    let g = wide::feed(first, &message[at..]);
    let second = g.state;
    let _ = wide::finish(second, 0, 0, &mut out);
    if whole == out {
        return 1;
    }
    0
}

fn wide_cuts(rt: &impl Print, m: &[u8]) -> io::Result<()>
    requires { 200 ≤ length m.now }
{
    let start = wide_cut(m, 0) + wide_cut(m, 1) + wide_cut(m, 63);
    let middle = wide_cut(m, 64) + wide_cut(m, 65) + wide_cut(m, 127);
    let end = wide_cut(m, 128) + wide_cut(m, 129) + wide_cut(m, 200);
    say(rt, b"wide, a message of 200 bytes cut in two: ")?;
    say_number(rt, start + middle + end)?;
    say(rt, b" of 9 cuts agree\n")
}

fn one_call_points(rt: &impl Print) -> io::Result<()> {
    let mut out = [0u8; 64];
    let mut short = [0u8; 27];
    say_answer(
        rt,
        b"one call, size 255, output of 27 bytes",
        one_call::digest(255, b"abc", &mut short),
    )?;
    say_answer(
        rt,
        b"one call, size 224, output of 27 bytes",
        one_call::digest(224, b"abc", &mut short),
    )?;
    say_answer(
        rt,
        b"one call, size 224, output of 64 bytes",
        one_call::digest(224, b"abc", &mut out),
    )?;
    say_answer(
        rt,
        b"one call, size 256, output of 64 bytes",
        one_call::digest(256, b"abc", &mut out),
    )?;
    say_answer(
        rt,
        b"one call, size 384, output of 64 bytes",
        one_call::digest(384, b"abc", &mut out),
    )?;
    say_answer(
        rt,
        b"one call, size 512, output of 64 bytes",
        one_call::digest(512, b"abc", &mut out),
    )
}

// One of 001's examples: `printed` is what the text shows of the value, from its byte `from` on.
fn example(
    rt: &impl Print,
    size: u32,
    block: usize,
    number: u64,
    key: &[u8],
    message: &[u8],
    from: usize,
    printed: &[u8],
) -> io::Result<()>
    requires { (block ≤ 128) × (length message.now ≤ 200) × (size ≤ 512) × (from ≤ 64) }
{
    let mut out = [0u8; 64];
    hmac(size, block, key, message, &mut out);
    say(rt, b"HMAC ")?;
    say_number(rt, size as u64)?;
    say(rt, b", example ")?;
    say_number(rt, number)?;
    say(rt, b": ")?;
    say_agreeing(rt, printed, &out[from..])
}

fn first(rt: &impl Print, size: u32, block: usize, from: usize, printed: &[u8]) -> io::Result<()>
    requires { (block ≤ 128) × (size ≤ 512) × (from ≤ 64) }
{
    let mut key = [0u8; 64];
    count_up(&mut key, 0);
    example(rt, size, block, 1, &key, b"Sample #1", from, printed)
}

fn second(rt: &impl Print, size: u32, block: usize, printed: &[u8]) -> io::Result<()>
    requires { (block ≤ 128) × (size ≤ 512) }
{
    let mut key = [0u8; 20];
    count_up(&mut key, 0x30);
    example(rt, size, block, 2, &key, b"Sample #2", 0, printed)
}

// The third key is that of the fourth example, and for the wide kind that twice.
fn third(rt: &impl Print, size: u32, block: usize, times: usize, printed: &[u8]) -> io::Result<()>
    requires { (block ≤ 128) × (size ≤ 512) × (times ≤ 2) }
{
    let mut once = [0u8; 100];
    count_up(&mut once, 0x50);
    let mut key = [0u8; 200];
    memory::copy_at(&mut key, 0, &once);
    memory::copy_at(&mut key, 100, &once);
    let n = 100 * times;
    example(
        rt,
        size,
        block,
        3,
        &key[..n],
        b"The successful verification of a MAC does not completely guarantee that the accompanying message is authentic.",
        0,
        printed,
    )
}

fn fourth(rt: &impl Print, size: u32, block: usize, printed: &[u8]) -> io::Result<()>
    requires { (block ≤ 128) × (size ≤ 512) }
{
    let mut key = [0u8; 100];
    count_up(&mut key, 0x50);
    example(
        rt,
        size,
        block,
        4,
        &key,
        b"The successful verification of a MAC does not completely guarantee that the accompanying message is authentic: there is a chance that a source with no knowledge of the key can present a purported MAC.",
        0,
        printed,
    )
}

// 001, section 3.16. The text at hand is a scan, read with the digit 0 for the letter O and B for R, which is no digit. Of the first value at 384
// it has the last 16 bytes alone. In the last value at 512, where it has R for B five times, it has 7F at byte 53, and the digest gives 7E.
fn examples_224(rt: &impl Print) -> io::Result<()> {
    first(
        rt,
        224,
        64,
        0,
        b"71C8F2BFD3CCF22569FC93F79F48750EE48620F0003F6BEB2A3CE6AC",
    )?;
    second(
        rt,
        224,
        64,
        b"8B40C47FA7FBCE0E6BF303A85F37FDD0B48B2B9E55F5F6FBF41BE6DF",
    )?;
    third(
        rt,
        224,
        64,
        1,
        b"E16AC9B54B998A934A39C27AA48EE2A495661062CAA03DBECDA70D21",
    )?;
    fourth(
        rt,
        224,
        64,
        b"92E297FF91BB08B9B2C68F6D2DA82F33353CA617C721DA0BFC03D801",
    )
}

fn examples_256(rt: &impl Print) -> io::Result<()> {
    first(
        rt,
        256,
        64,
        0,
        b"3673D50283A2D52DFC0BB83927D303862AC52BB9707199D89A4811256604D76B",
    )?;
    second(
        rt,
        256,
        64,
        b"B9B58E625AF9E85D46DDCC7770341B328FD856193A4EAA20E8F2D02FFE81FCEE",
    )?;
    third(
        rt,
        256,
        64,
        1,
        b"FC4B7A90A8F5326FEADE94C55581AB5F138B57DF93B89A094D684C1D76240C43",
    )?;
    fourth(
        rt,
        256,
        64,
        b"7CADF7ECF31BB57E75030676D1B3887789CFDF1BE2DBECDC75FE32E13982789D",
    )
}

fn examples_384(rt: &impl Print) -> io::Result<()> {
    first(rt, 384, 128, 32, b"FF68D7F45AAD286F5360E5BA091DA415")?;
    second(
        rt,
        384,
        128,
        b"5F49AF0398A7B853A3EC7BAB13CD003EE6D6540A0B8BC5B66AAEE3893396D046BA6C1290DC5DD1B29394E0993E2512EB",
    )?;
    third(
        rt,
        384,
        128,
        2,
        b"5B964E967CC77A655649A13193C72D36E15E5D61E31716952FD29E265E33A1DEAF0D7BFEB3B27557C09FCF450FF5E4BD",
    )?;
    fourth(
        rt,
        384,
        128,
        b"46DF6287B91B433E421F8594D41F8501BA074BC4C64CE0D48D19A5D18EE823AD7DF488C780D54C3120B86CD728C20A16",
    )
}

fn examples_512(rt: &impl Print) -> io::Result<()> {
    first(
        rt,
        512,
        128,
        0,
        b"B07398A705AFF818E332E03C788CF8C7A5BD347CB5ED27281B73977716952745CB25CFDEA9D0AD43201160E2E96BB42D91DA7544B2D83D646259DBABE3DAFC69",
    )?;
    second(
        rt,
        512,
        128,
        b"CEDC261D9B89C31FC84B7C66C7137F961622FFDE2B5715B9D3B85FFD919F4A054D0BBA7F6F68CE2E7D66150DC30B50022B308F89BABACDDD14680E59991E2D9A",
    )?;
    third(
        rt,
        512,
        128,
        2,
        b"1F1A500781AD0D6F0EE5862713459C3D06A9CB2E5750D834E82B07900F5D1253558E527DF778DF74D0819CB727343D3450DFB4D037921D567874E098459325FE",
    )?;
    fourth(
        rt,
        512,
        128,
        b"A69CA444D01E741CB7683A66C060D8C03F33A57E62BA50B880DF0A63900C6C36BEE535444C6EBB3178F48F551D5F244787AD07F07F96A4B3781A9E5EFB625F28",
    )
}

fn wide_examples(rt: &impl Print) -> io::Result<()> {
    examples_384(rt)?;
    examples_512(rt)
}

fn main(rt: HostRuntime) -> io::Result<()> {
    narrow_points(&rt)?;
    narrow_bit_points(&rt)?;
    wide_points(&rt)?;
    wide_bit_points(&rt)?;
    one_call_points(&rt)?;
    let mut m = [0u8; 200];
    count_up(&mut m, 0);
    narrow_cuts(&rt, &m)?;
    wide_cuts(&rt, &m)?;
    examples_224(&rt)?;
    examples_256(&rt)?;
    wide_examples(&rt)
}
