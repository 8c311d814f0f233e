//! The code of reference sample intervals, segment by segment, block by block.
//!
//! `short_blocks` codes a block of any size: it fills the block up, chooses the shortest option and
//! writes it. `write_next` writes the same bits faster, by code compiled for the block size.

mod filled_blocks;
mod pending_run;
mod short_blocks;

ghost use Rattle.std.specs.Prelude.{◌≡◌, ◌-◌, ◌%◌, ◌<◌, ◌≤◌, ◌++◌, true, false, if◌then◌else◌, length, take, drop, OnOk, IfErr};
ghost use Rattle.aec_params.specs.declared.fault.Fault.TheVariants.{Memory};
ghost use Rattle.std.specs.List.{AllByRecursion};
ghost use Rattle.aec_params.specs.Params.{IsAllowed, IsHeld};
ghost use Rattle.aec_params.specs.Cutting.{up_to_multiple};
ghost use Rattle.aec_params.specs.Streams.{stream_of};
ghost use Rattle.aec_params.specs.Runs.{segment_len};
ghost use Rattle.aec_params.specs.Codewords.{padded_to_byte};
ghost use Rattle.aec_params.specs.Intervals.{interval_bits};
ghost use Rattle.aec_interval.specs.Laws.{AreOfInterval};
ghost use Rattle.aec_interval.specs.Chunks.{block_after};
ghost use Rattle.aec_interval.specs.Pending.{IsKept, AreNext, TakesBlock, Writes, WritesAll};

use crate::block_sizes::by_block_size;
use crate::interval::filled_blocks::map_block;
use crate::interval::pending_run::{NO_RUN, Run, are_zero};
use crate::interval::short_blocks::write_short;
use crate::segment::SEGMENT_BLOCKS;
use aec_bits::BitBuf;
use aec_block::write_shortest_of;
use aec_params::{Fault, Params};
use std::alloc::Global;

/// Returns whether a segment goes on after the first `blocks` blocks of its interval.
#[inline(always)]
fn segment_goes_on(blocks: u32, interval: u32) -> bool
    ensures inside { result ≡ true → (blocks < interval) × (0 < blocks % segment_len) }
    ensures end { result ≡ false → blocks < interval → blocks % segment_len ≡ 0 }
{
    blocks < interval && blocks % SEGMENT_BLOCKS != 0
}

/// Takes the samples of the next block of a segment, after a run: by code compiled for `N` if they
/// are a whole block of `N`, else by `write_short`. A zero block joins the run, any other block is
/// written after it. Returns the run that is then still to be written. Fails with `Memory` if an
/// allocation fails.
#[inline(always)]
fn write_next<const N: usize>(
    alloc: Global,
    params: &Params,
    previous: Option<i64>,
    samples: &[i64],
    run: Run,
    out: &mut BitBuf,
) -> Result<Run, Fault>
    requires { AreNext params.now previous samples.now run }
    ensures { TakesBlock params.now (block_after params.now previous samples.now)
        run out.old result out.new }
{
    if samples.len() != N || params.block_size() as usize != N {
        // `write_short` stays out of line. It is lent a copy, so that the compiler can keep
        // `params` in registers.
        let own = *params;
        return write_short(alloc, &own, previous, samples, run, out);
    }
    let mut values = [0u32; N];
    let reference = map_block(params, previous, &samples[..N], &mut values);
    if are_zero(&values) {
        return Ok(run.longer(reference));
    }
    run.write(params, false, out)?;
    write_shortest_of::<N>(params, reference, &values, out)?;
    Ok(NO_RUN)
}

/// Returns how many zero bits pad the bits from `start` up to `end` to whole bytes.
fn missing_bits(start: u64, end: u64) -> u32
    requires { start ≤ end }
    ensures value { result ≡ up_to_multiple 8 (end - start) }
    ensures few { result < 8 }
{
    ((8 - (end - start) % 8) % 8) as u32
}

/// Pads the interval that begins at bit `start` by its own length, if the parameters say so. Fails
/// with `Memory` if an allocation fails; `out` then still begins with its old bits.
#[inline(always)]
fn end_interval(params: &Params, start: u64, out: &mut BitBuf) -> Result<(), Fault>
    requires { start ≤ length out.old.list }
    ensures ok { OnOk result (out.new.list ≡ take start out.old.list
        ++ (if params.now.pad then padded_to_byte (drop start out.old.list)
        else drop start out.old.list)) }
    ensures kept { IsKept out.old.list out.new.list }
    ensures fault { IfErr result (λ e. e ≡ Memory) }
{
    if params.pad() {
        out.push_bits(0, missing_bits(start, out.len()))?;
    }
    Ok(())
}

/// Appends the code of samples, interval by interval, with code compiled for whole blocks of `N`
/// samples: one loop over the blocks of all intervals. No block has 0 samples, so with 0 each goes
/// by `write_short`. Fails with `Memory` if an allocation fails; `out` then still begins with its
/// old bits.
#[inline(never)]
fn write_known_intervals<const N: usize>(
    alloc: Global,
    params: &Params,
    samples: &[i64],
    out: &mut BitBuf,
) -> Result<(), Fault>
    requires held { AllByRecursion (IsHeld params.now) samples.now }
    ensures { Writes (stream_of params.now samples.now) out.old.list result out.new.list }
{
    // A local copy stays in registers. Calls that stay out of line are lent copies of it.
    let own = *params;
    let interval = own.interval();
    let mut start = out.len();
    let mut preceding = None;
    let mut run = NO_RUN;
    let mut place = 0u32;
    for chunk in samples.chunks(own.block_size() as usize) {
        run = write_next::<N>(alloc, &own, preceding, chunk, run, out)?;
        place += 1;
        if segment_goes_on(place, interval) {
            preceding = chunk.last().copied();
            continue;
        }
        run.write(&own, true, out)?;
        run = NO_RUN;
        if place < interval {
            preceding = chunk.last().copied();
            continue;
        }
        end_interval(&own, start, out)?;
        start = out.len();
        preceding = None;
        place = 0;
    }
    run.write(&own, true, out)?;
    end_interval(&own, start, out)
}

/// Appends the code of samples, interval by interval. Fails with `Memory` if an allocation fails;
/// `out` then still begins with its old bits.
pub(crate) fn write_intervals(
    alloc: Global,
    params: &Params,
    samples: &[i64],
    out: &mut BitBuf,
) -> Result<(), Fault>
    requires { AllByRecursion (IsHeld params.now) samples.now }
    ensures written { Writes (stream_of params.now samples.now) out.old.list result out.new.list }
    ensures allowed { IsAllowed params.now }
{
    // For speed alone: `write_short` codes blocks of each size.
    by_block_size!(
        params.block_size(),
        [8 10 12 14 16 18 20 22 24 26 28 30 32 34 36 38 40 42 44 46 48 50 52 54 56 58 60 62 64],
        write_known_intervals(alloc, params, samples, out),
        write_known_intervals::<0>(alloc, params, samples, out)
    )
}

/// Appends the code of samples, interval by interval. Fails with `Memory` if an allocation fails;
/// the bits are then unchanged.
pub(crate) fn append_intervals(
    alloc: Global,
    params: &Params,
    samples: &[i64],
    out: &mut BitBuf,
) -> Result<(), Fault>
    requires { AllByRecursion (IsHeld params.now) samples.now }
    ensures { WritesAll (stream_of params.now samples.now) out.old.list result out.new.list }
{
    let start = out.len();
    let written = write_intervals(alloc, params, samples, out);
    if written.is_err() {
        out.truncate(start);
    }
    written
}

/// Appends the code of an interval. Fails with `Memory` if an allocation fails; the bits are then
/// unchanged.
pub(crate) fn append_interval(
    alloc: Global,
    params: &Params,
    samples: &[i64],
    out: &mut BitBuf,
) -> Result<(), Fault>
    requires { AreOfInterval params.now samples.now }
    ensures { WritesAll (interval_bits params.now samples.now) out.old.list result out.new.list }
{
    append_intervals(alloc, params, samples, out)
}
