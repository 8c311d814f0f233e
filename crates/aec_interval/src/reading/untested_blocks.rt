//! Reads blocks without a reference sample, single ones and runs of zero blocks, one coded data set
//! after the other, if no block needs a test of its place. `read_untested_blocks` chooses how many
//! blocks to try, appends places for them and cuts off the unfilled ones; `fill_blocks` calls
//! `fill_next` until that reads nothing.

ghost use Rattle.std.specs.Prelude.{◌≡◌, ◌≤◌, ◌<◌, ◌+◌, ◌-◌, ◌*◌, ◌%◌, false, max, length, take, vec_len, vec_capacity, IfSome, IfOk, IfErr, OnErr};
ghost use Rattle.std.specs.List.{AllByRecursion};
ghost use Rattle.aec_params.specs.Params.{IsHeld};
ghost use Rattle.aec_params.specs.Limits.{most_blocks, most_samples};
ghost use Rattle.aec_block.specs.BlockShape.{most_values};
ghost use Rattle.aec_interval.specs.Reached.{IsReached, RefusesUpTo};
ghost use Rattle.aec_interval.specs.Steps.{IsUntestedEnd};
ghost use Rattle.aec_interval.specs.UntestedBlocks.{FillsBlocks};

use crate::block_sizes::by_block_size;
use crate::reading::zero_runs::repeated_sample;
use crate::reading::{Wanted, block_count, blocks_left};
use crate::segment::previous_of;
use aec_bits::BitReader;
use aec_block::copies::{FILL_ANY_BLOCKS, FILL_KNOWN_BLOCKS};
use aec_block::{MOST_VALUES, is_single_next, read_run, read_single, unmap_into};
use aec_params::{Fault, Params};

/// Room is made for this many blocks at first, since often no more blocks follow that can be read
/// here.
const BLOCKS_AT_FIRST: usize = 2;

/// Then room is made for the blocks of about this many more samples. Places are cleared before they
/// are filled, so unused places waste time.
const MORE_SAMPLES: usize = 120;

/// Zeros that clear the places of the next samples. `BLOCKS_AT_FIRST` blocks and `MORE_SAMPLES`
/// samples have fewer places.
static ZEROS: [i64; 256] = [0; 256];

/// Returns a block before which no block of the interval that ends at block `end` needs a test of
/// its place: each keeps the limit and is needed, and no padding follows it.
fn untested_end(params: &Params, wanted: Wanted, end: u64) -> u64
    requires limit { wanted.limit ≤ most_samples }
    requires counted { IfSome wanted.count (λ count. count ≤ most_samples) }
    requires end { end ≡ wanted.first + params.now.interval }
    ensures { IsUntestedEnd params.now wanted.count wanted.limit wanted.first result }
{
    let size = u64::from(params.block_size());
    let samples = wanted.count.unwrap_or(wanted.limit);
    let unpadded = end - u64::from(params.pad());
    // In most intervals all blocks are within. This test needs no division.
    if unpadded.saturating_mul(size) <= samples {
        return unpadded;
    }
    unpadded.min(samples / size)
}

/// Reads the next run of zero blocks, from place `place` of an interval on, and writes its samples
/// after the first `from` samples. Returns how many blocks it read: 0 if no run comes, or if it has
/// more than `most` blocks or goes past the end of its segment (no clause says when).
#[cold]
#[inline(never)]
fn fill_run(
    params: &Params,
    reader: &mut BitReader,
    place: u64,
    most: usize,
    samples: &mut [i64],
    from: usize,
) -> usize
    requires place { place < params.now.interval }
    requires held { AllByRecursion (IsHeld params.now) (take from samples.old) }
    requires room { from + most * params.now.block_size ≤ length samples.old }
    ensures { FillsBlocks params.now place most from reader.old samples.old result reader.new
        samples.new }
{
    let start = reader.pos();
    if let Some((reference, len)) = read_run(params, reader, false) {
        let blocks = block_count(params, place, len);
        if blocks <= blocks_left(params, place).min(most as u64) {
            let sample = repeated_sample(params, reference, &samples[..from]);
            let end = from + blocks as usize * params.block_size() as usize;
            samples[from..end].fill(sample);
            return blocks as usize;
        }
    }
    reader.seek(start);
    0
}

/// Reads the next coded data set, from place `place` of an interval on, into `values` if it is a
/// single block, and writes its samples after the first `from` samples. Returns how many blocks it
/// read: one, or a run of at most `most`; 0 if neither comes.
#[inline(always)]
fn fill_next<const N: usize, const COPY: usize>(
    params: &Params,
    reader: &mut BitReader,
    place: u64,
    most: usize,
    values: &mut [u32],
    samples: &mut [i64],
    from: usize,
) -> usize
    requires some { 0 < most }
    requires place { place < params.now.interval }
    requires held { AllByRecursion (IsHeld params.now) (take from samples.old) }
    requires count { length values.old ≡ params.now.block_size }
    requires room { from + most * params.now.block_size ≤ length samples.old }
    ensures fills { FillsBlocks params.now place most from reader.old samples.old result reader.new
        samples.new }
    ensures count { length values.new ≡ length values.old }
{
    params.known_allowed();
    if !read_single::<N, COPY>(params, reader, values) {
        // Only this copy is lent, so that the caller's stays in registers.
        let lent = *params;
        return fill_run(&lent, reader, place, most, samples, from);
    }
    let previous = previous_of(&samples[..from]);
    let end = from + values.len();
    unmap_into(params, previous, values, &mut samples[from..end]);
    1
}

/// Reads the next blocks, from place `place` of an interval on, at most `most`, and writes their
/// samples after the first `from` samples. Returns how many blocks it read. Each caller
/// passes a `COPY` of its own, as `copies` of `aec_block` says.
#[inline(always)]
pub(crate) fn fill_blocks<const N: usize, const COPY: usize>(
    params: &Params,
    reader: &mut BitReader,
    place: u64,
    most: usize,
    values: &mut [u32],
    samples: &mut [i64],
    from: usize,
) -> usize
    requires within { place + most ≤ params.now.interval }
    requires held { AllByRecursion (IsHeld params.now) (take from samples.old) }
    requires count { length values.old ≡ params.now.block_size }
    requires room { from + most * params.now.block_size ≤ length samples.old }
    ensures fills { FillsBlocks params.now place most from reader.old samples.old result reader.new
        samples.new }
    ensures count { length values.new ≡ length values.old }
{
    params.known_allowed();
    let mut count = 0;
    let mut at = from;
    while count < most {
        let next = place + count as u64;
        let left = most - count;
        let read = fill_next::<N, COPY>(params, reader, next, left, values, samples, at);
        if read == 0 {
            return count;
        }
        count += read;
        at += read * values.len();
    }
    count
}

/// `fill_blocks` for blocks of `N` samples, out of line.
#[inline(never)]
fn fill_known_blocks<const N: usize>(
    params: &Params,
    reader: &mut BitReader,
    place: u64,
    most: usize,
    samples: &mut [i64],
    from: usize,
) -> usize
    requires within { place + most ≤ params.now.interval }
    requires held { AllByRecursion (IsHeld params.now) (take from samples.old) }
    requires size { N ≡ params.now.block_size }
    requires small { N ≤ most_values }
    requires room { from + most * params.now.block_size ≤ length samples.old }
    ensures { FillsBlocks params.now place most from reader.old samples.old result reader.new
        samples.new }
{
    // A copy that no other call can see stays in registers.
    let own = *params;
    let mut values = [0u32; N];
    fill_blocks::<N, FILL_KNOWN_BLOCKS>(&own, reader, place, most, &mut values, samples, from)
}

/// `fill_blocks` for blocks of any size, out of line.
#[inline(never)]
fn fill_any_blocks(
    params: &Params,
    reader: &mut BitReader,
    place: u64,
    most: usize,
    samples: &mut [i64],
    from: usize,
) -> usize
    requires within { place + most ≤ params.now.interval }
    requires held { AllByRecursion (IsHeld params.now) (take from samples.old) }
    requires room { from + most * params.now.block_size ≤ length samples.old }
    ensures { FillsBlocks params.now place most from reader.old samples.old result reader.new
        samples.new }
{
    // A copy that no other call can see stays in registers.
    let own = *params;
    let mut scratch = [0u32; MOST_VALUES];
    let values = &mut scratch[..own.block_size() as usize];
    fill_blocks::<0, FILL_ANY_BLOCKS>(&own, reader, place, most, values, samples, from)
}

/// `fill_blocks`, with code of its own for each usual block size.
fn fill_usual_blocks(
    params: &Params,
    reader: &mut BitReader,
    place: u64,
    most: usize,
    samples: &mut [i64],
    from: usize,
) -> usize
    requires within { place + most ≤ params.now.interval }
    requires held { AllByRecursion (IsHeld params.now) (take from samples.old) }
    requires room { from + most * params.now.block_size ≤ length samples.old }
    ensures { FillsBlocks params.now place most from reader.old samples.old result reader.new
        samples.new }
{
    by_block_size!(
        params.block_size(),
        [8 10 12 14 16 18 20 22 24 26 28 30 32 64],
        fill_known_blocks(params, reader, place, most, samples, from),
        fill_any_blocks(params, reader, place, most, samples, from)
    )
}

/// Reads the next blocks before block `end`, where the interval ends, if a single one comes first,
/// and appends their samples. Returns the number of the next block: `block` if none was read. Stops
/// at a coded data set that isn't read, such as a run with more blocks than places were made for,
/// and at a run where it would make more places; no clause says how far it comes. Fails with
/// `Memory` only if there was no room for the samples that the interval has left.
#[inline(never)]
pub(crate) fn read_untested_blocks(
    params: &Params,
    wanted: Wanted,
    reader: &mut BitReader,
    block: u64,
    end: u64,
    samples: &mut Vec<i64>,
) -> Result<u64, Fault>
    requires reached { IsReached params.now wanted.count wanted.limit reader.old.list wanted.first
        wanted.start block reader.old.pos samples.old.items }
    requires limit { wanted.limit ≤ most_samples }
    requires counted { IfSome wanted.count (λ count. count ≤ most_samples) }
    requires end { end ≡ wanted.first + params.now.interval }
    requires aligned { wanted.first % params.now.interval ≡ 0 }
    requires after { wanted.first < block }
    ensures reached { IfOk result (λ next. IsReached params.now wanted.count wanted.limit
        reader.new.list wanted.first wanted.start next reader.new.pos samples.new.items) }
    ensures forward { IfOk result (λ next. block ≤ next) }
    ensures within { IfOk result (λ next. next ≤ max block end) }
    ensures few { IfOk result (λ next. block < most_blocks → next < most_blocks) }
    ensures refuses { IfErr result (λ fault. RefusesUpTo params.now wanted.count wanted.limit
        reader.new.list wanted.first wanted.start end fault) }
    ensures list { reader.new.list ≡ reader.old.list }
    ensures len { IfOk result (λ next. vec_len samples.new
        ≤ vec_len samples.old + (next - block) * params.now.block_size) }
    ensures capacity { vec_capacity samples.old ≤ vec_capacity samples.new }
    ensures full { OnErr result
        (vec_capacity samples.old
        < vec_len samples.old + (end - block) * params.now.block_size) }
{
    let size = params.block_size() as usize;
    let last = untested_end(params, wanted, end);
    let mut at_once = BLOCKS_AT_FIRST;
    let mut next = block;
    while next < last {
        if !is_single_next(params, reader) {
            return Ok(next);
        }
        let asked = at_once.min((last - next) as usize);
        let place = next - wanted.first;
        let from = samples.len();
        let places = &ZEROS[..asked * size];
        samples.extend_from_slice(places)?;
        let all = samples.as_mut_slice();
        let read = fill_usual_blocks(params, reader, place, asked, all, from);
        samples.truncate(from + read * size);
        next += read as u64;
        if read < asked {
            return Ok(next);
        }
        at_once = BLOCKS_AT_FIRST + MORE_SAMPLES / size;
    }
    Ok(next)
}
