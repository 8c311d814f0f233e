//! Samples read from coded bits, one coded data set after another, from where an interval begins.

pub(crate) mod samples;
pub(crate) mod short;
pub(crate) mod short_interval;
pub(crate) mod skipping;
mod untested_blocks;
pub(crate) mod whole;
mod zero_runs;

ghost use Rattle.std.specs.Prelude.{◌≡◌, ◌≤◌, ◌<◌, ◌+◌, ◌-◌, ◌*◌, ◌%◌, ◌&&◌, nat_lt, min, [], length, vec_len, vec_capacity};
ghost use Rattle.std.specs.Prelude.{Some, None, OnOk, OnErr, IfSome, IfOk, IfErr};
ghost use Rattle.std.specs.Int.{div_ceil};
ghost use Rattle.aec_params.specs.declared.fault.Fault.TheVariants.{Memory};
ghost use Rattle.aec_params.specs.Params.{IsAllowed, interval_len};
ghost use Rattle.aec_params.specs.Places.{segment_left, is_reference_block};
ghost use Rattle.aec_params.specs.Reading.{is_wanted, keeps_limit, begin_of};
ghost use Rattle.aec_params.specs.Blocks.{Block as Values};
ghost use Rattle.aec_params.specs.Limits.{most_blocks, most_samples};
ghost use Rattle.aec_block.specs.ReadCds.{as_cds};
ghost use Rattle.aec_interval.specs.NextBlock.{FillsNext};
ghost use Rattle.aec_interval.specs.NextSet.{run_count, block_behind, kept_count, IsNextCds, cds_front, blocks_before_end};
ghost use Rattle.aec_interval.specs.Pieces.{counted_from};
ghost use Rattle.aec_interval.specs.Steps.{IsWantedNext, ComesNext, IsGoneOver};
ghost use Rattle.aec_interval.specs.Reached.{AreFilled, IsReached, IsReadFrom, RefusesReading, RefusesUpTo};

use crate::reading::samples::push_block;
use crate::reading::untested_blocks::read_untested_blocks;
use crate::reading::zero_runs::push_zero_run;
use crate::segment::SEGMENT_BLOCKS;
use aec_bits::{BitBuf, BitReader};
use aec_block::{Block, Found, RunLen, read_into};
use aec_params::{Fault, Params};
use std::alloc::Global;

/// Where an interval begins, and which samples are wanted.
#[derive(Clone, Copy)]
pub(crate) struct Wanted {
    /// The stream's block with which the interval begins.
    pub(crate) first: u64,
    /// The bit where the coded data set of that block begins.
    pub(crate) start: u64,
    /// The number of samples that are asked for, from block 0 on; `None` asks for all.
    pub(crate) count: Option<u64>,
    /// The greatest number of samples.
    pub(crate) limit: u64,
}

/// Returns whether `blocks` blocks are fewer than `count` samples need.
fn are_fewer(params: &Params, blocks: u64, count: u64) -> bool
    ensures { result ≡ nat_lt blocks (div_ceil count params.now.block_size) }
{
    blocks.saturating_mul(u64::from(params.block_size())) < count
}

/// Returns whether a coded data set is wanted at this block: with a count, while blocks are needed,
/// so that trailing bytes are ignored; without a count, while the rest is not all zeros.
pub(crate) fn wants_more(params: &Params, wanted: Wanted, reader: &BitReader, block: u64) -> bool
    ensures { result ≡ is_wanted params.now wanted.count reader.now.list block reader.now.pos }
{
    match wanted.count {
        Some(count) => are_fewer(params, block, count),
        None => !reader.rest_is_zero(),
    }
}

/// Returns whether the interval that ends at block `end` goes on at `block`: `block` is before
/// `end`, and more is wanted.
pub(crate) fn goes_on(
    params: &Params,
    wanted: Wanted,
    reader: &BitReader,
    block: u64,
    end: u64,
) -> bool
    ensures { result ≡ (nat_lt block end && is_wanted params.now wanted.count reader.now.list block
        reader.now.pos) }
{
    block < end && wants_more(params, wanted, reader, block)
}

/// Returns how many blocks a segment has left from block `place` of its interval on.
fn blocks_left(params: &Params, place: u64) -> u64
    requires { place < params.now.interval }
    ensures value { result ≡ segment_left params.now place }
    ensures some { 0 < result }
    ensures within { place + result ≤ params.now.interval }
{
    let segment = u64::from(SEGMENT_BLOCKS);
    (segment - place % segment).min(u64::from(params.interval()) - place)
}

/// Returns whether a segment has fewer than `blocks` blocks left from block `place` of its interval
/// on. One block needs no test: the segment has block `place` left.
#[inline(always)]
fn passes_segment(params: &Params, place: u64, blocks: u64) -> bool
    requires { place < params.now.interval }
    ensures { result ≡ nat_lt (segment_left params.now place) blocks }
{
    blocks > 1 && blocks > blocks_left(params, place)
}

/// Returns whether the block at this place of an interval has a reference sample.
pub(crate) fn has_reference(params: &Params, place: u64) -> bool
    ensures value { result ≡ is_reference_block params.now place }
    ensures allowed { IsAllowed params.now }
{
    params.known_allowed();
    params.preprocess() && place == 0
}

/// Returns whether `blocks` blocks keep the limit of samples. With a count, always true: the count
/// was tested before.
fn within_limit(params: &Params, wanted: Wanted, blocks: u64) -> bool
    requires { blocks < 64 * most_blocks }
    ensures { result ≡ keeps_limit params.now wanted.count wanted.limit blocks }
{
    wanted.count.is_some() || blocks * u64::from(params.block_size()) <= wanted.limit
}

/// If the parameters pad and block `block` begins an interval, moves to the next byte boundary. The
/// loop in `untested_blocks` needs no such call: with padding it ends before the interval's last
/// block.
pub(crate) fn skip_padding(params: &Params, reader: &mut BitReader, block: u64)
    ensures list { reader.new.list ≡ reader.old.list }
    ensures pos { reader.new.pos ≡ begin_of params.now reader.old.list block reader.old.pos }
{
    if params.pad() && block % u64::from(params.interval()) == 0 {
        reader.skip_to_byte();
    }
}

/// Returns how many blocks `len` means at block `place` of an interval.
pub(crate) fn block_count(params: &Params, place: u64, len: RunLen) -> u64
    requires { place < params.now.interval }
    ensures { result ≡ run_count params.now place len }
{
    match len {
        RunLen::Blocks(blocks) => blocks,
        RunLen::Rest => blocks_left(params, place),
    }
}

/// Returns the number of the block after a coded data set that begins at bit `bit`, at place
/// `place` of its interval, and decodes to `len` blocks. Fails with `RunTooLong` if its segment has
/// fewer blocks left, else with `TooManySamples` if the samples pass the limit.
pub(crate) fn block_after_set(
    params: &Params,
    wanted: Wanted,
    block: u64,
    place: u64,
    len: RunLen,
    bit: u64,
) -> Result<u64, Fault>
    requires few { block < most_blocks }
    requires place { place ≡ block % params.now.interval }
    ensures value { result
        ≡ block_behind params.now wanted.count wanted.limit block
        (run_count params.now (block % params.now.interval) len) bit }
    ensures after { IfOk result (λ next. block ≤ next) }
    ensures within { IfOk result (λ next. next ≤ block + blocks_before_end params.now block) }
{
    params.known_allowed();
    let blocks = block_count(params, place, len);
    if passes_segment(params, place, blocks) {
        return Err(Fault::RunTooLong { bit });
    }
    let next = block + blocks;
    if !within_limit(params, wanted, next) {
        return Err(Fault::TooManySamples {
            limit: wanted.limit,
        });
    }
    Ok(next)
}

/// Returns how many of the blocks from `block` up to `next` are kept: with a count those that are
/// still needed.
fn blocks_kept(params: &Params, wanted: Wanted, block: u64, next: u64) -> u64
    requires needed { IfSome wanted.count (λ count. block ≤ div_ceil count params.now.block_size) }
    requires forward { block ≤ next }
    ensures { result ≡ kept_count params.now wanted.count block (next - block) }
{
    match wanted.count {
        Some(count) if !are_fewer(params, next, count) => {
            let needed = count.div_ceil(u64::from(params.block_size()));
            (next - block).min(needed - block)
        }
        _ => next - block,
    }
}

/// Appends the samples of the first `kept` blocks of a coded data set, after `block` others. If it
/// is one block, that block was read into `values`. Allocates nothing.
fn push_cds(
    params: &Params,
    found: Found,
    values: &Block,
    kept: u64,
    block: u64,
    samples: &mut Vec<i64>,
)
    requires allowed { IsAllowed params.now }
    requires some { 1 ≤ kept }
    requires filled { AreFilled params.now block samples.old.items }
    requires next { IsNextCds params.now block samples.old.items kept (as_cds found values.now) }
    requires room { vec_len samples.old + kept * params.now.block_size ≤ vec_capacity samples.old }
    ensures items { FillsNext params.now samples.old.items samples.new.items
        (cds_front params.now kept (as_cds found values.now)) }
    ensures len { vec_len samples.new ≤ vec_len samples.old + kept * params.now.block_size }
    ensures capacity { vec_capacity samples.old ≤ vec_capacity samples.new }
{
    match found {
        Found::Single => push_block(params, values, samples),
        Found::Zeros { reference, .. } => push_zero_run(params, reference, kept, block, samples),
    }
}

/// Makes room for the samples of `blocks` more blocks.
fn reserve_blocks(params: &Params, blocks: u64, samples: &mut Vec<i64>) -> Result<(), Fault>
    requires { blocks ≤ params.now.interval }
    ensures items { samples.new.items ≡ samples.old.items }
    ensures len { vec_len samples.new ≡ vec_len samples.old }
    ensures ok { OnOk result (vec_len samples.new + blocks
        * params.now.block_size ≤ vec_capacity samples.new) }
    ensures capacity { vec_capacity samples.old ≤ vec_capacity samples.new }
    ensures full { OnErr result
        (vec_capacity samples.old < vec_len samples.old + blocks * params.now.block_size) }
    ensures fault { IfErr result (λ e. e ≡ Memory) }
{
    let more = blocks * u64::from(params.block_size());
    samples.reserve(more as usize)?;
    Ok(())
}

/// Reads the coded data set of a wanted block, at place `place` of its interval, into the block
/// `values`, and appends its samples. Returns the number of the next block. Fails with `Memory`
/// only if there was no room for the samples that the interval has left.
fn read_next(
    params: &Params,
    wanted: Wanted,
    reader: &mut BitReader,
    block: u64,
    place: u64,
    values: &mut Block,
    samples: &mut Vec<i64>,
) -> Result<u64, Fault>
    requires place { place ≡ block % params.now.interval }
    requires reached { IsReached params.now wanted.count wanted.limit reader.old.list wanted.first
        wanted.start block reader.old.pos samples.old.items }
    requires after { wanted.first ≤ block }
    requires wanted { IsWantedNext params.now wanted.count wanted.limit reader.old.list
        wanted.first block reader.old.pos }
    ensures ok { IfOk result (λ next.
        IsReached params.now wanted.count wanted.limit reader.new.list wanted.first wanted.start
        next reader.new.pos samples.new.items) }
    ensures refuses { IfErr result
        (λ fault. RefusesUpTo params.now wanted.count wanted.limit reader.old.list wanted.first
        wanted.start
        (block + blocks_before_end params.now block) fault) }
    ensures list { reader.new.list ≡ reader.old.list }
    ensures next { IfOk result (λ next. ComesNext params.now block next) }
    ensures len { IfOk result
        (λ next. vec_len samples.new ≤ vec_len samples.old + (next - block)
        * params.now.block_size) }
    ensures capacity { vec_capacity samples.old ≤ vec_capacity samples.new }
    ensures full { IfErr result (λ fault. fault ≡ Memory
        → vec_capacity samples.old < vec_len samples.old + blocks_before_end params.now block
        * params.now.block_size) }
{
    let bit = reader.pos();
    let found = read_into(params, reader, has_reference(params, place), values)?;
    let next = block_after_set(params, wanted, block, place, found.stands_for(), bit)?;
    let kept = blocks_kept(params, wanted, block, next);
    reserve_blocks(params, kept, samples)?;
    push_cds(params, found, values, kept, block - wanted.first, samples);
    skip_padding(params, reader, next);
    Ok(next)
}

/// Reads the interval that begins at a wanted block, up to its end or as far as blocks are wanted,
/// and appends its samples. Each coded data set is read into the block `values`. Returns the number
/// of the next block.
pub(crate) fn read_interval(
    params: &Params,
    wanted: Wanted,
    reader: &mut BitReader,
    values: &mut Block,
    samples: &mut Vec<i64>,
) -> Result<u64, Fault>
    requires begins { reader.old.pos ≡ wanted.start }
    requires empty { samples.old.items ≡ [] }
    requires wanted { IsWantedNext params.now wanted.count wanted.limit reader.old.list
        wanted.first wanted.first reader.old.pos }
    ensures ok { IfOk result (λ next.
        IsReached params.now wanted.count wanted.limit reader.new.list wanted.first wanted.start
        next reader.new.pos samples.new.items) }
    ensures refuses { IfErr result
        (λ fault. RefusesUpTo params.now wanted.count wanted.limit reader.old.list wanted.first
        wanted.start
        (wanted.first + params.now.interval) fault) }
    ensures list { reader.new.list ≡ reader.old.list }
    ensures over { IfOk result (λ next.
        IsGoneOver params.now wanted.count reader.new.list wanted.first next reader.new.pos) }
    ensures len { IfOk result (λ _. vec_len samples.new ≤ interval_len params.now) }
    ensures capacity { vec_capacity samples.old ≤ vec_capacity samples.new }
    ensures full { IfErr result
        (λ fault. fault ≡ Memory → vec_capacity samples.old < interval_len params.now) }
{
    let end = wanted.first + u64::from(params.interval());
    let mut block = wanted.first;
    loop {
        let place = block - wanted.first;
        let behind = read_next(params, wanted, reader, block, place, values, samples)?;
        block = read_untested_blocks(params, wanted, reader, behind, end, samples)?;
        if !goes_on(params, wanted, reader, block, end) {
            return Ok(block);
        }
    }
}

/// Keeps those samples that are asked for; the first is that of block `wanted.first`.
pub(crate) fn cut_to_count(params: &Params, wanted: Wanted, samples: &mut Vec<i64>)
    requires { wanted.first < most_blocks }
    ensures items { samples.new.items
        ≡ counted_from params.now wanted.count wanted.first samples.old.items }
    ensures capacity { vec_capacity samples.new ≡ vec_capacity samples.old }
{
    if let Some(count) = wanted.count {
        let before = wanted.first * u64::from(params.block_size());
        samples.truncate(count.saturating_sub(before) as usize);
    }
}

/// Appends to an empty list the samples that the bits from `wanted.start` on decode to: with a
/// count, the first `count`; without one, all samples of all blocks.
fn decode_list(
    alloc: Global,
    params: &Params,
    bits: &BitBuf,
    wanted: Wanted,
    samples: &mut Vec<i64>,
) -> Result<(), Fault>
    requires within { wanted.start ≤ length bits.now.list }
    requires limit { wanted.limit ≤ most_samples }
    requires counted { IfSome wanted.count (λ count. count ≤ most_samples) }
    requires first { wanted.first ≡ 0 }
    requires empty { samples.old.items ≡ [] }
    ensures ok { OnOk result (IsReadFrom params.now wanted.count wanted.limit bits.now.list
        wanted.start samples.new.items) }
    ensures refuses { IfErr result
        (λ fault. RefusesReading params.now wanted.count wanted.limit bits.now.list 0 wanted.start
        fault) }
{
    let mut reader = BitReader::new(bits);
    reader.seek(wanted.start);
    let mut values = Block::new(alloc, None);
    let mut block = wanted.first;
    while wants_more(params, wanted, &reader, block) {
        let place = block % u64::from(params.interval());
        block = read_next(
            params,
            wanted,
            &mut reader,
            block,
            place,
            &mut values,
            samples,
        )?;
    }
    cut_to_count(params, wanted, samples);
    Ok(())
}

/// Returns the samples that the bits from `wanted.start` on decode to: with a count, the first
/// `count`; without one, all samples of all blocks.
pub(crate) fn decode_from(
    alloc: Global,
    params: &Params,
    bits: &BitBuf,
    wanted: Wanted,
) -> Result<Vec<i64>, Fault>
    requires within { wanted.start ≤ length bits.now.list }
    requires limit { wanted.limit ≤ most_samples }
    requires counted { IfSome wanted.count (λ count. count ≤ most_samples) }
    requires first { wanted.first ≡ 0 }
    ensures ok { IfOk result (λ samples. IsReadFrom params.now wanted.count wanted.limit
        bits.now.list wanted.start samples.items) }
    ensures refuses { IfErr result
        (λ fault. RefusesReading params.now wanted.count wanted.limit bits.now.list 0 wanted.start
        fault) }
{
    let mut samples = Vec::new(alloc);
    decode_list(alloc, params, bits, wanted, &mut samples)?;
    Ok(samples)
}
