// Records laid out for the archive, a byte shuffle as compression filters call it, and the way back: each call tests its arguments and refuses by number.
#![tactic(auto)]

ghost use Rattle.std.specs.Prelude.{◌≡◌, true, ◌++◌, ◌%◌, ◌^◌, ◌≤◌, length, drop};
ghost use Rattle.answer.specs.Injective.{Fits};
ghost use Rattle.quasigroup.specs.Tables.{known_width};
ghost use Rattle.shuffle.specs.Shuffle.{record_length, shuffled_record, unshuffled_record, shuffled, unshuffled};
ghost use Rattle.shuffle.specs.Shuffle.{records_answer, shuffle_out, unshuffle_out};

use answer::Answer;

// The record `s`, shuffled, to the start of `out`. The numbers are the bytes of a word, the words of a tile and the logarithm of these: the compiler puts the
// call in line and knows them.
fn shuffle_record(width: u32, s: &[u8], out: &mut [u8])
    requires { (known_width width ≡ true) × (length s.now ≡ record_length width) × (record_length width ≤ length out.old) }
    ensures { out.new ≡ shuffled_record width s.now ++ drop (record_length width) out.old }
{
    if width == 32 {
        record::shuffle(s, out, 4, 32, 5);
        return;
    }
    record::shuffle(s, out, 8, 16, 4);
}

// The shuffled record `s`, as it was, to the start of `out`. The numbers are the bytes of a word, the words of a tile and the logarithm of the former.
fn restore_record(width: u32, s: &[u8], out: &mut [u8])
    requires { (known_width width ≡ true) × (length s.now ≡ record_length width) × (record_length width ≤ length out.old) }
    ensures { out.new ≡ unshuffled_record width s.now ++ drop (record_length width) out.old }
{
    if width == 32 {
        record::restore(s, out, 4, 32, 2);
        return;
    }
    record::restore(s, out, 8, 16, 3);
}

// Each record, shuffled, to its place in `out`.
fn shuffle_records(width: u32, records: &[u8], out: &mut [u8])
    requires { let s = records.now in (known_width width ≡ true) × (length s % record_length width ≡ 0) × (length s ≤ length out.old) }
    ensures { let s = records.now in out.new ≡ shuffled width s ++ drop (length s) out.old }
{
    let n = 8 * (width as usize);
    let count = records.len() / n;
    for i in 0..count {
        let at = i * n;
        let end = at + n;
        shuffle_record(width, &records[at..end], &mut out[at..]);
    }
}

// Each shuffled record, as it was, to its place in `out`.
fn restore_records(width: u32, records: &[u8], out: &mut [u8])
    requires { let s = records.now in (known_width width ≡ true) × (length s % record_length width ≡ 0) × (length s ≤ length out.old) }
    ensures { let s = records.now in out.new ≡ unshuffled width s ++ drop (length s) out.old }
{
    let size = 8 * (width as usize);
    let count = records.len() / size;
    for i in 0..count {
        let from = i * size;
        let to = from + size;
        restore_record(width, &records[from..to], &mut out[from..]);
    }
}

// The records, shuffled, to the start of `out`; what stands behind them in `out` stays. The answer fits the number that C receives.
pub fn shuffle(width: u32, records: &[u8], out: &mut [u8]) -> Answer
    ensures value { result ≡ records_answer width (length records.now) (length out.old) }
    ensures out_after { out.new ≡ shuffle_out width records.now out.old }
    ensures fits { Fits (2 ^ 63) result }
{
    let written = operands::records::answer_for(width, records, out)?;
    shuffle_records(width, records, out);
    Ok(written)
}

// The shuffled records, as they were, to the start of `out`; what stands behind them in `out` stays. The answer fits the number that C receives.
pub fn unshuffle(width: u32, records: &[u8], out: &mut [u8]) -> Answer
    ensures value { result ≡ records_answer width (length records.now) (length out.old) }
    ensures out_after { out.new ≡ unshuffle_out width records.now out.old }
    ensures fits { Fits (2 ^ 63) result }
{
    let written = operands::records::answer_for(width, records, out)?;
    restore_records(width, records, out);
    Ok(written)
}
