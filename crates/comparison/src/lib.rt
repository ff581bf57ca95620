// A record held against the state that it should be, both as lent bytes.
#![tactic(auto)]

ghost use Rattle.std.specs.Prelude.{◌≡◌, true, false, ◌+◌, ◌/◌, ◌≤◌, eqb, length};
ghost use Rattle.std.specs.Int.Bits.{bit_xor};
ghost use Rattle.memory.specs.Bytes.{word_at, words_at};
ghost use Rattle.quasigroup.specs.Tables.{known_width};
ghost use Rattle.shuffle.specs.Shuffle.{record_length};
ghost use Rattle.replay.specs.Difference.{record_at, agreeing, same_words, difference};

use lent_words::LentWord;
use replay::Finding;

// The bits in which the words at `at` differ.
fn word_difference(x: &[u8], y: &[u8], at: usize) -> u64
    requires { (at + 8 ≤ length x.now) × (at + 8 ≤ length y.now) }
    ensures { result ≡ bit_xor (word_at 8 x.now at) (word_at 8 y.now at) }
{
    u64::load(x, at) ^ u64::load(y, at)
}

// The bits in which the first eight words differ, those of all pairs together: none where each pair is the same.
fn differing_bits(x: &[u8], y: &[u8]) -> u64
    requires { (64 ≤ length x.now) × (64 ≤ length y.now) }
    ensures { eqb result 0 ≡ eqb (agreeing (words_at 8 8 x.now 0) (words_at 8 8 y.now 0)) 8 }
{
    word_difference(x, y, 0)
        | (word_difference(x, y, 8)
            | (word_difference(x, y, 16)
                | (word_difference(x, y, 24)
                    | (word_difference(x, y, 32)
                        | (word_difference(x, y, 40)
                            | (word_difference(x, y, 48) | word_difference(x, y, 56)))))))
}

// Whether the record at `from` holds: its bytes are those of the state. They are compared 64 at a time, at either width, and tested once, so that the
// compiler takes several words together.
pub fn record_holds(width: u32, state: &[u8], records: &[u8], from: usize) -> bool
    requires { (known_width width ≡ true) × (length state.now ≡ record_length width) × (from + record_length width ≤ length records.now) }
    ensures { result ≡ same_words (record_at width records.now from) (record_at width state.now 0) }
{
    let chunks = width as usize / 8;
    let mut bits: u64 = 0;
    for k in 0..chunks {
        let at = 64 * k;
        let there = from + at;
        bits |= differing_bits(&records[there..], &state[at..]);
    }
    bits == 0
}

// The word whose bytes stand at `at`.
fn word_at(width: u32, s: &[u8], at: usize) -> u64
    requires { (known_width width ≡ true) × (at + width / 8 ≤ length s.now) }
    ensures { result ≡ word_at (width / 8) s.now at }
{
    if width == 32 {
        u32::load(s, at).into()
    } else {
        u64::load(s, at)
    }
}

// How many words agree, of all 64, before the first that differs.
fn agreeing(width: u32, state: &[u8], records: &[u8], from: usize) -> usize
    requires { (known_width width ≡ true) × (length state.now ≡ record_length width) × (from + record_length width ≤ length records.now) }
    ensures { result ≡ agreeing (record_at width records.now from) (record_at width state.now 0) }
{
    let bytes = width as usize / 8;
    for i in 0..64 {
        let at = i * bytes;
        if word_at(width, records, from + at) != word_at(width, state, at) {
            return i;
        }
    }
    64
}

// What is told of a record that does not hold, whose command stands at `offset` of its sheet.
pub fn finding(width: u32, offset: usize, state: &[u8], records: &[u8], from: usize) -> Finding
    requires width_value { (known_width width ≡ true) × (length state.now ≡ record_length width) × (from + record_length width ≤ length records.now) }
    requires state_value { same_words (record_at width records.now from) (record_at width state.now 0) ≡ false }
    ensures { result ≡ difference offset (record_at width records.now from) (record_at width state.now 0) }
{
    let i = agreeing(width, state, records, from);
    let at = i * (width as usize / 8);
    let found = word_at(width, records, from + at);
    let expected = word_at(width, state, at);
    Finding {
        offset: offset as u64,
        place: (i / 8) as u64,
        word: (i % 8) as u64,
        found,
        expected,
    }
}
