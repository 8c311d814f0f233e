//! Reads several short intervals at a time, if no block needs a test of its place. `read_short`
//! sets the greatest number. `fill_several_intervals` reads intervals of one kind after the other,
//! `fill_intervals` those of one kind while `fill_interval` reads one more.

ghost use Rattle.std.specs.Prelude.{◌≡◌, ◌≤◌, ◌<◌, ◌+◌, ◌-◌, ◌*◌, ◌%◌, ℕ, false, max, length, vec_len, vec_capacity, IfSome};
ghost use Rattle.std.specs.Option.{is_some};
ghost use Rattle.aec_params.specs.Params.{interval_len};
ghost use Rattle.aec_params.specs.Limits.{most_blocks, most_samples};
ghost use Rattle.aec_block.specs.BlockShape.{most_values};
ghost use Rattle.aec_interval.specs.Reached.{IsReached};
ghost use Rattle.aec_interval.specs.ShortIntervals.{AreWithin, FillsIntervals};

use crate::reading::Wanted;
use crate::reading::short_interval::{WholeRuns, fill_interval, is_whole_run_next};
use aec_bits::BitReader;
use aec_block::copies::{PREDICTED, UNPREDICTED, ZEROS};
use aec_block::is_single_next;
use aec_params::Params;

/// The greatest number of samples that are read at a time.
const MAX_SAMPLES_AT_ONCE: u64 = 4096;

/// Intervals of more blocks are read one at a time: what an interval costs besides its blocks is
/// then small.
const MAX_SHORT_BLOCKS: u32 = 8;

/// At least this many places are made at a time.
const MIN_PLACES: usize = 64;

/// Returns whether the next interval is short and one run of zero blocks; no clause says so. The
/// reader doesn't move.
pub(crate) fn is_zero_interval_next(params: &Params, reader: &mut BitReader) -> bool
    ensures { reader.new ≡ reader.old }
{
    params.interval() <= MAX_SHORT_BLOCKS && is_whole_run_next(params, reader)
}

/// Reads the next intervals while `fill_interval` reads them, at most `most`, and writes their
/// samples to `samples`. Returns how many intervals it read.
#[inline(never)]
fn fill_intervals<const N: usize, const M: usize, const KIND: usize>(
    params: &Params,
    reader: &mut BitReader,
    most: usize,
    samples: &mut [i64],
) -> usize
    requires size { N ≡ params.now.block_size }
    requires small { N ≤ most_values }
    requires short { params.now.interval ≤ 64 }
    requires room { most * interval_len params.now ≤ length samples.old }
    ensures { FillsIntervals params.now most reader.old samples.old result reader.new samples.new }
{
    // A local copy stays in registers.
    let own = *params;
    let len = own.interval_len() as usize;
    let mut values = [0u32; N];
    let mut runs = WholeRuns { count: 0, end: 0 };
    let mut count = 0;
    let mut at = 0;
    while count < most {
        let part = &mut samples[at..at + len];
        if !fill_interval::<N, M, KIND>(&own, reader, &mut runs, &mut values, part) {
            return count;
        }
        count += 1;
        at += len;
    }
    count
}

/// `fill_intervals`, compiled for the usual block sizes. Reads no interval of any other block size.
fn fill_usual_intervals<const KIND: usize>(
    params: &Params,
    reader: &mut BitReader,
    most: usize,
    samples: &mut [i64],
) -> usize
    requires short { params.now.interval ≤ 64 }
    requires room { most * interval_len params.now ≤ length samples.old }
    ensures { FillsIntervals params.now most reader.old samples.old result reader.new samples.new }
{
    match params.block_size() {
        8 => fill_intervals::<8, 7, KIND>(params, reader, most, samples),
        16 => fill_intervals::<16, 15, KIND>(params, reader, most, samples),
        32 => fill_intervals::<32, 31, KIND>(params, reader, most, samples),
        64 => fill_intervals::<64, 63, KIND>(params, reader, most, samples),
        _ => 0,
    }
}

/// `fill_usual_intervals` for intervals of single blocks and runs.
fn fill_mixed_intervals(
    params: &Params,
    reader: &mut BitReader,
    most: usize,
    samples: &mut [i64],
) -> usize
    requires short { params.now.interval ≤ 64 }
    requires room { most * interval_len params.now ≤ length samples.old }
    ensures { FillsIntervals params.now most reader.old samples.old result reader.new samples.new }
{
    if params.preprocess() {
        return fill_usual_intervals::<PREDICTED>(params, reader, most, samples);
    }
    fill_usual_intervals::<UNPREDICTED>(params, reader, most, samples)
}

/// `fill_mixed_intervals`, but first, if no single block comes next, `fill_usual_intervals` for
/// intervals that are each one run of zero blocks.
fn fill_next_intervals(
    params: &Params,
    reader: &mut BitReader,
    most: usize,
    samples: &mut [i64],
) -> usize
    requires short { params.now.interval ≤ 64 }
    requires room { most * interval_len params.now ≤ length samples.old }
    ensures { FillsIntervals params.now most reader.old samples.old result reader.new samples.new }
{
    if is_single_next(params, reader) {
        return fill_mixed_intervals(params, reader, most, samples);
    }
    let zeros = fill_usual_intervals::<ZEROS>(params, reader, most, samples);
    if zeros > 0 {
        return zeros;
    }
    fill_mixed_intervals(params, reader, most, samples)
}

/// Reads the next intervals while `fill_next_intervals` reads some, at most `most`, and writes
/// their samples to `samples`. Returns how many intervals it read.
fn fill_several_intervals(
    params: &Params,
    reader: &mut BitReader,
    most: usize,
    samples: &mut [i64],
) -> usize
    requires short { params.now.interval ≤ 64 }
    requires room { most * interval_len params.now ≤ length samples.old }
    ensures { FillsIntervals params.now most reader.old samples.old result reader.new samples.new }
{
    let len = params.interval_len() as usize;
    let mut count = 0;
    let mut at = 0;
    while count < most {
        let rest = &mut samples[at..];
        let read = fill_next_intervals(params, reader, most - count, rest);
        if read == 0 {
            return count;
        }
        count += read;
        at += read * len;
    }
    count
}

/// Returns how many intervals from `wanted.first` on need no test of their place: their samples are
/// within the count or the limit.
fn untested_intervals(params: &Params, wanted: Wanted) -> u64
    requires unpadded { params.now.pad ≡ false }
    requires few { wanted.first < most_blocks }
    requires limit { wanted.limit ≤ most_samples }
    requires counted { IfSome wanted.count (λ count. count ≤ most_samples) }
    ensures { (n : ℕ) → 0 < n → n ≤ result → AreWithin params.now wanted.count wanted.limit
        (wanted.first + n * params.now.interval) }
{
    let samples = wanted.count.unwrap_or(wanted.limit);
    let before = wanted.first * u64::from(params.block_size());
    samples.saturating_sub(before) / params.interval_len()
}

/// Returns how many intervals are read at a time: at most `most` samples, for which there is room.
/// 0 if an interval has many blocks, or padding. The clauses `short` and `room` repeat the numbers
/// `MAX_SHORT_BLOCKS` and `MAX_SAMPLES_AT_ONCE`.
fn intervals_at_once(params: &Params, wanted: Wanted, most: u64, capacity: usize) -> u64
    requires few { wanted.first < most_blocks }
    requires limit { wanted.limit ≤ most_samples }
    requires counted { IfSome wanted.count (λ count. count ≤ most_samples) }
    ensures within { (n : ℕ) → 0 < n → n ≤ result → AreWithin params.now wanted.count wanted.limit
        (wanted.first + n * params.now.interval) }
    ensures short { 0 < result → params.now.interval ≤ 8 }
    ensures most { result * interval_len params.now ≤ most }
    ensures room { result * interval_len params.now ≤ 4096 }
    ensures there { result * interval_len params.now ≤ capacity }
{
    if params.pad() || params.interval() > MAX_SHORT_BLOCKS {
        return 0;
    }
    let room = most.min(MAX_SAMPLES_AT_ONCE).min(capacity as u64) / params.interval_len();
    room.min(untested_intervals(params, wanted))
}

/// Returns how many places are made after `last` samples were read: at most twice as many, or
/// `MIN_PLACES` if that is more, since `resize` zeroes the places that it adds. If `last` is 0,
/// returns `capacity`, but at most twice `MAX_SAMPLES_AT_ONCE`.
fn places_at_once(last: usize, capacity: usize) -> usize
    ensures there { result ≤ capacity }
    ensures few { 0 < last → result ≤ max 64 (2 * last) }
{
    let filled = if last == 0 {
        MAX_SAMPLES_AT_ONCE as usize
    } else {
        last
    };
    capacity.min(filled.saturating_mul(2).max(MIN_PLACES))
}

/// Reads the next intervals as `fill_several_intervals` does, and replaces the items of `samples`
/// by their samples, at most `most`. Returns the number of the next block: `wanted.first` if none
/// was read; `samples` may then hold anything. Allocates nothing.
pub(crate) fn read_short(
    params: &Params,
    wanted: Wanted,
    most: u64,
    reader: &mut BitReader,
    samples: &mut Vec<i64>,
) -> u64
    requires begins { reader.old.pos ≡ wanted.start }
    requires aligned { wanted.first % params.now.interval ≡ 0 }
    requires few { wanted.first < most_blocks }
    requires limit { wanted.limit ≤ most_samples }
    requires counted { IfSome wanted.count (λ count. count ≤ most_samples) }
    ensures reached { wanted.first < result → IsReached params.now wanted.count wanted.limit
        reader.new.list wanted.first wanted.start result reader.new.pos samples.new.items }
    ensures stays { result ≡ wanted.first → reader.new ≡ reader.old }
    ensures list { reader.new.list ≡ reader.old.list }
    ensures forward { wanted.first ≤ result }
    ensures few { result < most_blocks }
    ensures ends { result % params.now.interval ≡ 0 }
    ensures len { wanted.first < result → vec_len samples.new ≤ most }
    ensures capacity { vec_capacity samples.old ≤ vec_capacity samples.new }
{
    let len = params.interval_len();
    let room = places_at_once(samples.len(), samples.capacity());
    let asked = intervals_at_once(params, wanted, most, room);
    if asked == 0 {
        return wanted.first;
    }
    samples.resize((asked * len) as usize, 0).unwrap();
    let all = samples.as_mut_slice();
    let count = fill_several_intervals(params, reader, asked as usize, all);
    samples.truncate(count * len as usize);
    wanted.first + count as u64 * u64::from(params.interval())
}
