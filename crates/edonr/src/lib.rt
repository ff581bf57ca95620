// What C sees. An answer is one 64-bit number: a success's own number, or 2^32 times the refusal number plus the offset. Feeding and the layouts of records,
// whose success can pass 2^32, mark a refusal with bit 63 besides.
#![tactic(auto)]

ghost use Rattle.std.specs.Prelude.{◌≡◌, ◌^◌, length};
ghost use Rattle.answer.specs.Number.{number_of, marked_number};
ghost use Rattle.answer.specs.Injective.{Fits};
ghost use Rattle.answer.specs.Refuse.{outcome};
ghost use Rattle.quasigroup.specs.Product.{product};
ghost use Rattle.quasigroup.specs.Division.{left_division, right_division};
ghost use Rattle.operands.specs.Operation.{answer_for, output_after};
ghost use Rattle.digest.specs.Kind.{narrow_kind, wide_kind};
ghost use Rattle.digest.specs.State.{open_answer, opened, finish_answer, finish_out, finish_bits_answer, finish_bits_out};
ghost use Rattle.digest.specs.OneCall.{one_call_answer, one_call_out};
ghost use Rattle.batch.specs.Batch.{batch_answer, batch_out};
ghost use Rattle.invertible.specs.RoundTrip.{Forward, Backward};
ghost use Rattle.sheet.specs.Run.{run_answer, run_bytes};
ghost use Rattle.slice.specs.Slice.{slice_answer, slice_bytes};
ghost use Rattle.slice.specs.Number.{slice_number};
ghost use Rattle.inverse.specs.Inverse.{inverse_answer, inverse_out};
ghost use Rattle.pipe.specs.Call.{step_answer, step_bytes};
ghost use Rattle.shuffle.specs.Shuffle.{records_answer, shuffle_out, unshuffle_out};
ghost use Rattle.replay.specs.Replay.{replay_answer};
ghost use Rattle.replay.specs.Number.{replay_number, finding_after};
ghost use Rattle.hamming.specs.Counts.{flipped_answer, counts_after};
ghost use Rattle.narrow.specs.Outcomes.{narrow_of, hash_of as ofNarrow, fed as fedNarrow};
ghost use Rattle.wide.specs.Outcomes.{wide_of, hash_of as ofWide, fed as fedWide};

use narrow::Narrow;
use wide::Wide;

// X*Y, into the first `width` bytes of `out`.
#[unsafe(no_mangle)]
pub extern "C" fn edonr_product(width: u32, x: &[u8], y: &[u8], out: &mut [u8]) -> u64
    ensures value { result ≡ number_of (answer_for width x.now y.now out.old) }
    ensures out_after { out.new ≡ output_after product width x.now y.now out.old }
{
    answer::number(buffer::product(width, x, y, out))
}

// a\b, into the first `width` bytes of `out`.
#[unsafe(no_mangle)]
pub extern "C" fn edonr_left_division(width: u32, a: &[u8], b: &[u8], out: &mut [u8]) -> u64
    ensures value { result ≡ number_of (answer_for width a.now b.now out.old) }
    ensures out_after { out.new ≡ output_after left_division width a.now b.now out.old }
{
    answer::number(buffer::left_division(width, a, b, out))
}

// b/a, into the first `width` bytes of `out`.
#[unsafe(no_mangle)]
pub extern "C" fn edonr_right_division(width: u32, b: &[u8], a: &[u8], out: &mut [u8]) -> u64
    ensures value { result ≡ number_of (answer_for width b.now a.now out.old) }
    ensures out_after { out.new ≡ output_after right_division width b.now a.now out.old }
{
    answer::number(buffer::right_division(width, b, a, out))
}

// The digest of `message` of `size` bits, into the first `size` / 8 bytes of `out`.
#[unsafe(no_mangle)]
pub extern "C" fn edonr_digest(size: u32, message: &[u8], out: &mut [u8]) -> u64
    ensures value { result ≡ number_of (one_call_answer size message.now out.old) }
    ensures out_after { out.new ≡ one_call_out size message.now out.old }
{
    answer::number(one_call::digest(size, message, out))
}

// The digests of `size` bits of all messages, joined in `messages` and with the lengths in `lengths`, into the first bytes of `out`, `size` / 8 for each.
#[unsafe(no_mangle)]
pub extern "C" fn edonr_digests(size: u32, messages: &[u8], lengths: &[u32], out: &mut [u8]) -> u64
    ensures value { result ≡ number_of (batch_answer size (length messages.now) lengths.now (length out.old)) }
    ensures out_after { out.new ≡ batch_out size messages.now lengths.now out.old }
{
    answer::number(batch_call::digests(size, messages, lengths, out))
}

// A forward run of the sheet over the lent vectors.
#[unsafe(no_mangle)]
pub extern "C" fn edonr_run_forward(width: u32, vectors: &mut [u8], sheet: &[u8]) -> u64
    ensures value { result ≡ number_of (run_answer width sheet.now vectors.old) }
    ensures vectors_after { vectors.new ≡ run_bytes Forward width sheet.now vectors.old }
{
    answer::number(run::run_forward(width, vectors, sheet))
}

// A backward run of the sheet over the lent vectors: it undoes a forward run.
#[unsafe(no_mangle)]
pub extern "C" fn edonr_run_backward(width: u32, vectors: &mut [u8], sheet: &[u8]) -> u64
    ensures value { result ≡ number_of (run_answer width sheet.now vectors.old) }
    ensures vectors_after { vectors.new ≡ run_bytes Backward width sheet.now vectors.old }
{
    answer::number(run::run_backward(width, vectors, sheet))
}

// A forward run of the sheet from `offset` on, of at most `budget` commands.
#[unsafe(no_mangle)]
pub extern "C" fn edonr_run_slice(
    width: u32,
    vectors: &mut [u8],
    sheet: &[u8],
    offset: u32,
    budget: u16,
) -> u64
    ensures value { result ≡ slice_number (slice_answer budget width sheet.now offset vectors.old) }
    ensures vectors_after { vectors.new ≡ slice_bytes budget width sheet.now offset vectors.old }
{
    slice::number(slicer::run_slice(width, vectors, sheet, offset, budget))
}

// The first false record of a run of the sheet over the vectors. `finding` is written beside a false record, and else keeps what it has.
#[unsafe(no_mangle)]
pub extern "C" fn edonr_first_false_record(
    width: u32,
    vectors: &[u8],
    sheet: &[u8],
    records: &[u8],
    finding: &mut [u64; 5],
) -> u64
    ensures value { result ≡ replay_number (replay_answer width sheet.now vectors.now records.now) }
    ensures finding_after { let a = replay_answer width sheet.now vectors.now records.now in
        finding.new ≡ finding_after a finding.old }
{
    replay::report(
        replayer::first_false_record(width, vectors, sheet, records),
        finding,
    )
}

// The inverse of the sheet, into the first bytes of `out`, as many as the sheet has.
#[unsafe(no_mangle)]
pub extern "C" fn edonr_inverse_sheet(width: u32, sheet: &[u8], out: &mut [u8]) -> u64
    ensures value { result ≡ number_of (inverse_answer width sheet.now out.old) }
    ensures out_after { out.new ≡ inverse_out width sheet.now out.old }
{
    answer::number(inverter::inverse_sheet(width, sheet, out))
}

// The records, shuffled, into the first bytes of `out`, as many as they have. Their length fits beside a refusal with bit 63, so that the number tells the
// answer.
#[unsafe(no_mangle)]
pub extern "C" fn edonr_shuffle(width: u32, records: &[u8], out: &mut [u8]) -> u64
    ensures value { result ≡ marked_number (records_answer width (length records.now) (length out.old)) }
    ensures out_after { out.new ≡ shuffle_out width records.now out.old }
    ensures fits { Fits (2 ^ 63) (records_answer width (length records.now) (length out.old)) }
{
    answer::marked_number(shuffler::shuffle(width, records, out))
}

// The shuffled records, as they were, into the first bytes of `out`, as many as they have.
#[unsafe(no_mangle)]
pub extern "C" fn edonr_unshuffle(width: u32, records: &[u8], out: &mut [u8]) -> u64
    ensures value { result ≡ marked_number (records_answer width (length records.now) (length out.old)) }
    ensures out_after { out.new ≡ unshuffle_out width records.now out.old }
    ensures fits { Fits (2 ^ 63) (records_answer width (length records.now) (length out.old)) }
{
    answer::marked_number(shuffler::unshuffle(width, records, out))
}

// In how many bits the two digests of each record differ, into the first elements of `counts`, one a record.
#[unsafe(no_mangle)]
pub extern "C" fn edonr_flipped_bits(records: &[u8], counts: &mut [u16]) -> u64
    ensures value { result ≡ number_of (flipped_answer records.now (length counts.old)) }
    ensures counts_after { counts.new ≡ counts_after records.now counts.old }
{
    answer::number(distances::flipped_bits(records, counts))
}

// The pipe after the block, in its place.
#[unsafe(no_mangle)]
pub extern "C" fn edonr_block_forward(width: u32, pipe: &mut [u8], block: &[u8]) -> u64
    ensures value { result ≡ number_of (step_answer width block.now pipe.old) }
    ensures pipe_after { pipe.new ≡ step_bytes Forward width block.now pipe.old }
{
    answer::number(lent_pipe::forward(width, pipe, block))
}

// The pipe before the block, in its place: it undoes a step forward.
#[unsafe(no_mangle)]
pub extern "C" fn edonr_block_backward(width: u32, pipe: &mut [u8], block: &[u8]) -> u64
    ensures value { result ≡ number_of (step_answer width block.now pipe.old) }
    ensures pipe_after { pipe.new ≡ step_bytes Backward width block.now pipe.old }
{
    answer::number(lent_pipe::backward(width, pipe, block))
}

// A narrow hash of `size` bits is opened in `hash`, whatever stood there; a refusal leaves what stood there.
#[unsafe(no_mangle)]
pub extern "C" fn edonr_narrow_open(hash: &mut Narrow, size: u32) -> u64
    ensures { (result ≡ number_of (open_answer narrow_kind size))
        × (hash.new ≡ outcome (open_answer narrow_kind size) (narrow_of (opened narrow_kind size)) hash.old) }
{
    let r = pieces::narrow_open(*hash, size);
    *hash = r.state;
    r.number
}

// `hash` takes `bytes`.
#[unsafe(no_mangle)]
pub extern "C" fn edonr_narrow_feed(hash: &mut Narrow, bytes: &[u8]) -> u64
    ensures { (result ≡ marked_number (fedNarrow hash.old bytes.now).answer)
        × (hash.new ≡ (fedNarrow hash.old bytes.now).state) }
{
    let r = pieces::narrow_feed(*hash, bytes);
    *hash = r.state;
    r.number
}

// The digest of what `hash` was fed, to the start of `out`; `hash` may be fed further.
#[unsafe(no_mangle)]
pub extern "C" fn edonr_narrow_finish(hash: &Narrow, out: &mut [u8]) -> u64
    ensures { (result ≡ number_of (finish_answer narrow_kind (ofNarrow hash.now) out.old))
        × (out.new ≡ finish_out narrow_kind (ofNarrow hash.now) out.old) }
{
    pieces::narrow_finish(*hash, out)
}

// The digest of what `hash` was fed and then the `count` highest bits of `last`, to the start of `out`; `hash` may be fed further.
#[unsafe(no_mangle)]
pub extern "C" fn edonr_narrow_finish_bits(
    hash: &Narrow,
    last: u8,
    count: u32,
    out: &mut [u8],
) -> u64
    ensures { (result ≡ number_of (finish_bits_answer narrow_kind (ofNarrow hash.now) count out.old))
        × (out.new ≡ finish_bits_out narrow_kind (ofNarrow hash.now) last count out.old) }
{
    pieces::narrow_finish_bits(*hash, last, count, out)
}

// A wide hash of `size` bits is opened in `hash`, whatever stood there; a refusal leaves what stood there.
#[unsafe(no_mangle)]
pub extern "C" fn edonr_wide_open(hash: &mut Wide, size: u32) -> u64
    ensures { (result ≡ number_of (open_answer wide_kind size))
        × (hash.new ≡ outcome (open_answer wide_kind size) (wide_of (opened wide_kind size)) hash.old) }
{
    let r = pieces::wide_open(*hash, size);
    *hash = r.state;
    r.number
}

// `hash` takes `bytes`.
#[unsafe(no_mangle)]
pub extern "C" fn edonr_wide_feed(hash: &mut Wide, bytes: &[u8]) -> u64
    ensures { (result ≡ marked_number (fedWide hash.old bytes.now).answer)
        × (hash.new ≡ (fedWide hash.old bytes.now).state) }
{
    let r = pieces::wide_feed(*hash, bytes);
    *hash = r.state;
    r.number
}

// The digest of what `hash` was fed, to the start of `out`; `hash` may be fed further.
#[unsafe(no_mangle)]
pub extern "C" fn edonr_wide_finish(hash: &Wide, out: &mut [u8]) -> u64
    ensures { (result ≡ number_of (finish_answer wide_kind (ofWide hash.now) out.old))
        × (out.new ≡ finish_out wide_kind (ofWide hash.now) out.old) }
{
    pieces::wide_finish(*hash, out)
}

// The digest of what `hash` was fed and then the `count` highest bits of `last`, to the start of `out`; `hash` may be fed further.
#[unsafe(no_mangle)]
pub extern "C" fn edonr_wide_finish_bits(hash: &Wide, last: u8, count: u32, out: &mut [u8]) -> u64
    ensures { (result ≡ number_of (finish_bits_answer wide_kind (ofWide hash.now) count out.old))
        × (out.new ≡ finish_bits_out wide_kind (ofWide hash.now) last count out.old) }
{
    pieces::wide_finish_bits(*hash, last, count, out)
}
