//! Reads one short interval, if no block needs a test of its place: `fill_interval` is compiled for
//! each kind of interval. `fill_first` reads the first coded data set, `fill_rest` the others.

ghost use Rattle.std.specs.Prelude.{◌≡◌, ◌≤◌, ◌<◌, ◌-◌, ◌*◌, true, false, length, take, replicate, IfSome};
ghost use Rattle.std.specs.Option.{is_some};
ghost use Rattle.std.specs.List.{AllByRecursion};
ghost use Rattle.aec_params.specs.Params.{IsHeld, interval_len};
ghost use Rattle.aec_interval.specs.UntestedBlocks.{ReadsBlocks};
ghost use Rattle.aec_interval.specs.ShortIntervals.{ReadsFirst, ReadsWhole, FillsFirst, FillsInterval};

use crate::reading::block_count;
use crate::reading::untested_blocks::fill_blocks;
use crate::reading::zero_runs::repeated_sample;
use aec_bits::BitReader;
use aec_block::copies::{FILL_UNPREDICTED_BLOCK, PREDICTED, UNPREDICTED, ZEROS};
use aec_block::{read_run, read_single, read_single_first, unmap_into};
use aec_params::Params;

/// Reads the next block as the first of its interval, with a reference sample, if it is a single
/// one, and writes its samples to the front of `samples`. Returns how many blocks it read: 1, or 0
/// if no such block comes. `N` is the block size for which this is compiled, `M` the number of
/// values after a reference sample: one less.
#[inline(always)]
fn fill_reference_block<const N: usize, const M: usize>(
    params: &Params,
    reader: &mut BitReader,
    values: &mut [u32],
    samples: &mut [i64],
) -> usize
    requires on { params.now.preprocess ≡ true }
    requires count { length values.old ≡ params.now.block_size }
    requires room { params.now.block_size ≤ length samples.old }
    ensures fills { FillsFirst params.now reader.old samples.old result reader.new samples.new }
    ensures stays { result ≡ 0 → reader.new ≡ reader.old }
    ensures count { length values.new ≡ length values.old }
{
    params.known_allowed();
    match read_single_first::<N, M>(params, reader, values) {
        None => 0,
        Some(pattern) => {
            let first = params.value(pattern);
            let len = values.len();
            unmap_into(params, first, values, &mut samples[..len]);
            1
        }
    }
}

/// `fill_reference_block` without a reference sample, if no sample is predicted.
#[inline(always)]
fn fill_unpredicted_block<const N: usize>(
    params: &Params,
    reader: &mut BitReader,
    values: &mut [u32],
    samples: &mut [i64],
) -> usize
    requires off { params.now.preprocess ≡ false }
    requires count { length values.old ≡ params.now.block_size }
    requires room { params.now.block_size ≤ length samples.old }
    ensures fills { FillsFirst params.now reader.old samples.old result reader.new samples.new }
    ensures stays { result ≡ 0 → reader.new ≡ reader.old }
    ensures count { length values.new ≡ length values.old }
{
    params.known_allowed();
    if !read_single::<N, FILL_UNPREDICTED_BLOCK>(params, reader, values) {
        return 0;
    }
    let len = values.len();
    unmap_into(params, 0, values, &mut samples[..len]);
    1
}

/// `fill_reference_block` or `fill_unpredicted_block`, for an interval of kind `KIND`.
#[inline(always)]
fn fill_first_block<const N: usize, const M: usize, const KIND: usize>(
    params: &Params,
    reader: &mut BitReader,
    values: &mut [u32],
    samples: &mut [i64],
) -> usize
    requires count { length values.old ≡ params.now.block_size }
    requires room { params.now.block_size ≤ length samples.old }
    ensures fills { FillsFirst params.now reader.old samples.old result reader.new samples.new }
    ensures stays { result ≡ 0 → reader.new ≡ reader.old }
    ensures count { length values.new ≡ length values.old }
{
    if KIND == PREDICTED && params.preprocess() {
        return fill_reference_block::<N, M>(params, reader, values, samples);
    }
    if KIND == UNPREDICTED && !params.preprocess() {
        return fill_unpredicted_block::<N>(params, reader, values, samples);
    }
    0
}

/// Reads the next coded data set as the first of its interval, if it is a run of zero blocks and no
/// longer than the interval. Returns how many blocks it has, and the sample that it repeats. Else
/// returns `None`, and the reader hasn't moved.
#[inline(always)]
fn read_first_run(params: &Params, reader: &mut BitReader) -> Option<(u64, i64)>
    requires short { params.now.interval ≤ 64 }
    ensures read { IfSome result (λ run. ReadsFirst params.now run.0 reader.old reader.new
        (replicate (run.0 * params.now.block_size) run.1)) }
    ensures within { IfSome result (λ run. run.0 ≤ params.now.interval) }
    ensures stays { is_some result ≡ false → reader.new ≡ reader.old }
    ensures list { reader.new.list ≡ reader.old.list }
{
    params.known_allowed();
    let start = reader.pos();
    if let Some((reference, len)) = read_run(params, reader, params.preprocess()) {
        let blocks = block_count(params, 0, len);
        if blocks <= u64::from(params.interval()) {
            return Some((blocks, repeated_sample(params, reference, &[])));
        }
    }
    reader.seek(start);
    None
}

/// Returns whether the next interval is one run of zero blocks; no clause says so. The reader
/// doesn't move.
#[inline(always)]
pub(crate) fn is_whole_run_next(params: &Params, reader: &mut BitReader) -> bool
    requires { params.now.interval ≤ 64 }
    ensures { reader.new ≡ reader.old }
{
    let start = reader.pos();
    let comes = read_whole_run(params, reader).is_some();
    reader.seek(start);
    comes
}

/// The intervals that were read last, if each is one run of zero blocks: how many, and the bit
/// where the last ends.
#[derive(Clone, Copy)]
pub(crate) struct WholeRuns {
    pub(crate) count: u32,
    pub(crate) end: u64,
}

/// So many intervals one after the other that are each one run are read by the loop for mixed
/// intervals. For further ones the loop for zeros is faster, though it costs a call.
const MOST_WHOLE_RUNS: u32 = 8;

/// Returns whether the run at bit `start` is a whole interval, and `MOST_WHOLE_RUNS` such intervals
/// end there; else counts the run. No clause speaks of the count.
#[inline(always)]
fn leaves_run(params: &Params, start: u64, end: u64, blocks: u64, runs: &mut WholeRuns) -> bool {
    if blocks != u64::from(params.interval()) {
        return false;
    }
    let before = if runs.end == start { runs.count } else { 0 };
    *runs = WholeRuns {
        count: before.saturating_add(1),
        end,
    };
    before >= MOST_WHOLE_RUNS
}

/// Reads the next run of zero blocks as `read_first_run` does, and writes its samples to the front
/// of `samples`. Returns how many blocks it read: 0 if it read none. Reads none after
/// `MOST_WHOLE_RUNS` intervals that are each one run: the loop for such intervals then reads them.
#[cold]
#[inline(never)]
fn fill_first_run(
    params: &Params,
    reader: &mut BitReader,
    runs: &mut WholeRuns,
    samples: &mut [i64],
) -> usize
    requires short { params.now.interval ≤ 64 }
    requires len { length samples.old ≡ interval_len params.now }
    ensures { FillsFirst params.now reader.old samples.old result reader.new samples.new }
{
    let start = reader.pos();
    let Some((blocks, sample)) = read_first_run(params, reader) else {
        return 0;
    };
    if leaves_run(params, start, reader.pos(), blocks, runs) {
        reader.seek(start);
        return 0;
    }
    let len = blocks as usize * params.block_size() as usize;
    samples[..len].fill(sample);
    blocks as usize
}

/// `fill_first_block`; if that reads none, `fill_first_run`.
#[inline(always)]
fn fill_first<const N: usize, const M: usize, const KIND: usize>(
    params: &Params,
    reader: &mut BitReader,
    runs: &mut WholeRuns,
    values: &mut [u32],
    samples: &mut [i64],
) -> usize
    requires short { params.now.interval ≤ 64 }
    requires count { length values.old ≡ params.now.block_size }
    requires len { length samples.old ≡ interval_len params.now }
    ensures fills { FillsFirst params.now reader.old samples.old result reader.new samples.new }
    ensures count { length values.new ≡ length values.old }
{
    params.known_allowed();
    let first = fill_first_block::<N, M, KIND>(params, reader, values, samples);
    if first > 0 {
        return first;
    }
    // Only this copy is lent, so that the caller's stays in registers.
    let lent = *params;
    fill_first_run(&lent, reader, runs, samples)
}

/// Reads the other blocks of an interval whose first `first` blocks were read, and writes their
/// samples after those of the first. Returns whether it read all.
#[inline(always)]
fn fill_rest<const N: usize, const COPY: usize>(
    params: &Params,
    reader: &mut BitReader,
    first: usize,
    values: &mut [u32],
    samples: &mut [i64],
) -> bool
    requires size { N ≡ params.now.block_size }
    requires within { first ≤ params.now.interval }
    requires count { length values.old ≡ params.now.block_size }
    requires held { AllByRecursion (IsHeld params.now) (take (first * N) samples.old) }
    requires len { length samples.old ≡ interval_len params.now }
    ensures ok { result ≡ true → ReadsBlocks params.now first (params.now.interval - first)
        reader.old (take (first * N) samples.old) reader.new samples.new }
    ensures list { reader.new.list ≡ reader.old.list }
    ensures count { length values.new ≡ length values.old }
    ensures len { length samples.new ≡ length samples.old }
{
    let rest = params.interval() as usize - first;
    let place = first as u64;
    let from = first * N;
    fill_blocks::<N, COPY>(params, reader, place, rest, values, samples, from) == rest
}

/// Reads the next interval, if `fill_first` and `fill_rest` read all of it, and writes its samples
/// to `samples`. Else returns false, and the reader hasn't moved.
#[inline(always)]
fn fill_mixed_interval<const N: usize, const M: usize, const KIND: usize>(
    params: &Params,
    reader: &mut BitReader,
    runs: &mut WholeRuns,
    values: &mut [u32],
    samples: &mut [i64],
) -> bool
    requires size { N ≡ params.now.block_size }
    requires short { params.now.interval ≤ 64 }
    requires count { length values.old ≡ params.now.block_size }
    requires len { length samples.old ≡ interval_len params.now }
    ensures fills { FillsInterval params.now reader.old samples.old result reader.new samples.new }
    ensures count { length values.new ≡ length values.old }
{
    params.known_allowed();
    let start = reader.pos();
    let first = fill_first::<N, M, KIND>(params, reader, runs, values, samples);
    if first > 0 && fill_rest::<N, KIND>(params, reader, first, values, samples) {
        return true;
    }
    reader.seek(start);
    false
}

/// Returns the sample that the next interval repeats, if it is one run of zero blocks, and moves
/// past it. Else returns `None`, and the reader hasn't moved.
#[inline(always)]
pub(crate) fn read_whole_run(params: &Params, reader: &mut BitReader) -> Option<i64>
    requires { params.now.interval ≤ 64 }
    ensures ok { IfSome result (λ sample. ReadsWhole params.now 1 reader.old reader.new
        (replicate (interval_len params.now) sample)) }
    ensures stays { is_some result ≡ false → reader.new ≡ reader.old }
    ensures list { reader.new.list ≡ reader.old.list }
{
    let start = reader.pos();
    if let Some((blocks, sample)) = read_first_run(params, reader) {
        if blocks == u64::from(params.interval()) {
            return Some(sample);
        }
    }
    reader.seek(start);
    None
}

/// Reads the next interval, if it is one run of zero blocks, and writes its samples to `samples`.
/// Else returns false, and the reader hasn't moved.
#[inline(always)]
fn fill_zero_interval(params: &Params, reader: &mut BitReader, samples: &mut [i64]) -> bool
    requires short { params.now.interval ≤ 64 }
    requires len { length samples.old ≡ interval_len params.now }
    ensures { FillsInterval params.now reader.old samples.old result reader.new samples.new }
{
    let Some(sample) = read_whole_run(params, reader) else {
        return false;
    };
    samples.fill(sample);
    true
}

/// Reads the next interval and writes its samples to `samples`, or returns false, and the reader
/// hasn't moved. `KIND` says what the interval may be, and `runs` which were read before, for speed
/// alone: no clause speaks of them. One loop for all kinds would make each slower.
#[inline(always)]
pub(crate) fn fill_interval<const N: usize, const M: usize, const KIND: usize>(
    params: &Params,
    reader: &mut BitReader,
    runs: &mut WholeRuns,
    values: &mut [u32],
    samples: &mut [i64],
) -> bool
    requires size { N ≡ params.now.block_size }
    requires short { params.now.interval ≤ 64 }
    requires count { length values.old ≡ params.now.block_size }
    requires len { length samples.old ≡ interval_len params.now }
    ensures fills { FillsInterval params.now reader.old samples.old result reader.new samples.new }
    ensures count { length values.new ≡ length values.old }
{
    if KIND == ZEROS {
        return fill_zero_interval(params, reader, samples);
    }
    fill_mixed_interval::<N, M, KIND>(params, reader, runs, values, samples)
}
