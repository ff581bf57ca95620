// In how many bits two digests differ, for each record of two: the call tests its arguments and refuses by number.
#![tactic(auto)]

ghost use Rattle.std.specs.Prelude.{◌≡◌, ◌++◌, ◌+◌, ◌≤◌, length, drop};
ghost use Rattle.hamming.specs.Distance.{distance};
ghost use Rattle.memory.specs.Lists.{bytes_at, total};
ghost use Rattle.hamming.specs.Counts.{pair_count, flipped_counts, whole_pairs, flipped_answer, counts_after};

use answer::{Answer, Refusal};
use lent_words::LentWord;

// Whether records may have `n` bytes.
fn whole_pairs(n: usize) -> bool
    ensures { result ≡ whole_pairs n }
{
    n % 64 == 0 && n <= 65536
}

// In how many bits the word at `at`, of a record's first digest, and that of its second differ.
fn word_distance(s: &[u8], at: usize) -> u32
    requires { at + 40 ≤ length s.now }
    ensures result_value { let t = s.now in result ≡ distance (bytes_at 8 t at) (bytes_at 8 t (at + 32)) }
    ensures upper_bound { result ≤ 64 }
{
    let x = u64::load(s, at);
    let y = u64::load(s, at + 32);
    (x ^ y).count_ones()
}

// In how many bits the digests of the record at `at` differ.
fn record_distance(s: &[u8], at: usize) -> u32
    requires { at + 64 ≤ length s.now }
    ensures result_value { let t = s.now in result ≡ distance (bytes_at 32 t at) (bytes_at 32 t (at + 32)) }
    ensures upper_bound { result ≤ 256 }
{
    let a = word_distance(s, at);
    let b = word_distance(s, at + 8);
    let c = word_distance(s, at + 16);
    let d = word_distance(s, at + 24);
    a + (b + (c + d))
}

// A count for each record, to its place in `counts`; the answer is their sum.
fn count_records(records: &[u8], counts: &mut [u16]) -> u64
    requires { let m = length records.now in (m ≤ 65536) × (pair_count m ≤ length counts.old) }
    ensures value { result ≡ total (flipped_counts records.now) }
    ensures counts_after { let s = records.now in counts.new ≡ flipped_counts s ++ drop (pair_count (length s)) counts.old }
{
    let n = records.len() / 64;
    let mut sum: u64 = 0;
    for k in 0..n {
        let count = record_distance(records, 64 * k);
        counts[k] = count as u16;
        sum += count as u64;
    }
    sum
}

// A count for each record, to the start of `counts`; what stands behind them stays. A success answers the sum.
pub fn flipped_bits(records: &[u8], counts: &mut [u16]) -> Answer
    ensures value { result ≡ flipped_answer records.now (length counts.old) }
    ensures counts_after { counts.new ≡ counts_after records.now counts.old }
{
    answer::require(whole_pairs(records.len()), Refusal::Pairs)?;
    answer::require(records.len() / 64 <= counts.len(), Refusal::Output)?;
    Ok(count_records(records, counts))
}
