//! The general path of a block: `filled_block` makes its values, `choose` finds the shortest
//! option, `write_block` writes it. It codes a block of any size, and one that has fewer samples
//! than the others.

ghost use Rattle.std.specs.Prelude.{◌≡◌, ◌+◌, ◌-◌, ◌<◌, ◌≤◌, ◌++◌, length, replicate};
ghost use Rattle.std.specs.List.{AllByRecursion};
ghost use Rattle.aec_params.specs.Params.{IsHeld};
ghost use Rattle.aec_params.specs.Mapping.{mapped_after, mapped_value};
ghost use Rattle.aec_params.specs.Runs.{segment_len};
ghost use Rattle.aec_block.specs.BlockShape.{most_values};
ghost use Rattle.aec_block.specs.Choices.{IsFull};
ghost use Rattle.aec_interval.specs.Chunks.{values_after, reference_after, block_after, AreBlockAfter, IsFilledBlock};
ghost use Rattle.aec_interval.specs.Pending.{IsRun, AreNext, TakesBlock};

use crate::interval::filled_blocks::reference_after;
use crate::interval::pending_run::{NO_RUN, Run};
use crate::segment::previous_of;
use aec_bits::BitBuf;
use aec_block::{Block, choose, map, write_block};
use aec_params::{Fault, Params};
use std::alloc::Global;

/// Appends the values of samples to a block. Each sample is predicted from the one before it, the
/// first from `previous`.
fn push_mapped(params: &Params, previous: i64, samples: &[i64], block: &mut Block)
    requires prediction { IsHeld params.now previous }
    requires held { AllByRecursion (IsHeld params.now) samples.now }
    requires room { length block.old.values + length samples.now ≤ most_values }
    ensures { block.new ≡ record block.old {
      values = block.old.values ++ mapped_after params.now previous samples.now;
    } }
{
    let mut p = previous;
    for i in 0..samples.len() {
        let x = samples[i];
        block.push(map(params, p, x));
        p = x;
    }
}

/// Appends a value `count` times.
fn push_repeated(block: &mut Block, value: u32, count: usize)
    requires room { length block.old.values + count ≤ most_values }
    ensures { block.new ≡ record block.old { values = block.old.values ++ replicate count value } }
{
    for i in 0..count {
        block.push(value);
    }
}

/// Returns the block of samples that follow `previous` or begin an interval, before it is filled
/// up.
fn mapped_block(alloc: Global, params: &Params, previous: Option<i64>, samples: &[i64]) -> Block
    requires block { AreBlockAfter params.now previous samples.now }
    requires few { length samples.now ≤ most_values }
    ensures reference { result.reference ≡ reference_after params.now previous samples.now }
    ensures values { result.values ≡ values_after params.now previous samples.now }
{
    let mut block = Block::new(alloc, reference_after(params, previous, samples));
    // A sample in the reference place has no value of its own. It predicts the next one.
    let first = previous.unwrap_or(samples[0]);
    let others = &samples[block.len()..];
    push_mapped(params, first, others, &mut block);
    block
}

/// Returns the value that fills a block up after its last sample: that sample is repeated.
fn filler(params: &Params, last: i64) -> u32
    requires { IsHeld params.now last }
    ensures { result ≡ mapped_value params.now last last }
{
    map(params, last, last)
}

/// Returns the block of samples that follow `previous` or begin an interval. It is filled up with
/// the last of them.
fn filled_block(alloc: Global, params: &Params, previous: Option<i64>, samples: &[i64]) -> Block
    requires { AreBlockAfter params.now previous samples.now }
    ensures { IsFilledBlock params.now previous samples.now result }
{
    let mut block = mapped_block(alloc, params, previous, samples);
    let value = filler(params, previous_of(samples));
    let missing = params.block_size() as usize - samples.len();
    push_repeated(&mut block, value, missing);
    block
}

/// Takes the next block of a segment, after a run: a zero block joins the run, any other block is
/// written after it. Returns the run that is then still to be written. Fails with `Memory` if an
/// allocation fails.
fn take_block(params: &Params, block: &Block, run: Run, out: &mut BitBuf) -> Result<Run, Fault>
    requires full { IsFull params.now block.now }
    requires run { IsRun params.now (segment_len - 1) run }
    ensures { TakesBlock params.now block.now run out.old result out.new }
{
    if block.is_zero() {
        return Ok(run.longer(block.reference()));
    }
    run.write(params, false, out)?;
    write_block(params, block, choose(params, block), out)?;
    Ok(NO_RUN)
}

/// Takes the samples of the next block of a segment, after a run, as `take_block` does. The block
/// may have any size, and fewer samples than the others.
#[inline(never)]
pub(crate) fn write_short(
    alloc: Global,
    params: &Params,
    previous: Option<i64>,
    samples: &[i64],
    run: Run,
    out: &mut BitBuf,
) -> Result<Run, Fault>
    requires { AreNext params.now previous samples.now run }
    ensures { TakesBlock params.now (block_after params.now previous samples.now)
        run out.old result out.new }
{
    let block = filled_block(alloc, params, previous, samples);
    take_block(params, &block, run, out)
}
