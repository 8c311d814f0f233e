//! Skips coded data sets from the start of an interval, without making their samples. Their values
//! may be read into a block `values`, which is scratch space.

ghost use Rattle.std.specs.Prelude.{◌≡◌, ◌≤◌, ◌<◌, ◌+◌, ◌*◌, ◌%◌, true, false, unwrap_or, IfSome, IfOk, IfErr};
ghost use Rattle.aec_params.specs.Params.{IsAllowed};
ghost use Rattle.aec_params.specs.Reading.{is_wanted};
ghost use Rattle.aec_params.specs.Faults.{IsFault};
ghost use Rattle.aec_params.specs.Limits.{most_blocks, most_samples};
ghost use Rattle.aec_interval.specs.NextSet.{blocks_before_end};
ghost use Rattle.aec_interval.specs.Steps.{IsWantedNext, ComesNext, IsGoneOver, SkipsBlocks};
ghost use Rattle.aec_interval.specs.Skipping.{IsLedTo, IsFaultBefore, asked_len};

use crate::reading::{Wanted, block_after_set, goes_on, has_reference, skip_padding, wants_more};
use aec_bits::BitReader;
use aec_block::{Block, skip_cds, skip_single};
use aec_params::{Fault, Params};

/// Moves past the coded data set of a wanted block, at place `place` of its interval. Returns the
/// number of the next block. Fails as `read_next` does, but never with `Memory`. Allocates nothing.
fn skip_next(
    params: &Params,
    wanted: Wanted,
    reader: &mut BitReader,
    block: u64,
    place: u64,
    values: &mut Block,
) -> Result<u64, Fault>
    requires place { place ≡ block % params.now.interval }
    requires led { IsLedTo params.now wanted.count wanted.limit reader.old.list wanted.first
        wanted.start block reader.old.pos }
    requires wanted { IsWantedNext params.now wanted.count wanted.limit reader.old.list
        wanted.first block reader.old.pos }
    ensures ok { IfOk result (λ next.
        IsLedTo params.now wanted.count wanted.limit reader.new.list wanted.first wanted.start next
        reader.new.pos) }
    ensures refuses { IfErr result
        (λ fault. IsFaultBefore params.now wanted.count wanted.limit reader.old.list wanted.first
        wanted.start
        (block + blocks_before_end params.now block) fault) }
    ensures list { reader.new.list ≡ reader.old.list }
    ensures next { IfOk result (λ next. ComesNext params.now block next) }
{
    let bit = reader.pos();
    let len = skip_cds(params, reader, has_reference(params, place), values)?;
    let next = block_after_set(params, wanted, block, place, len, bit)?;
    skip_padding(params, reader, next);
    Ok(next)
}

/// Moves past the interval that begins at a wanted block, up to its end or as far as blocks are
/// wanted. Returns the number of the next block. Allocates nothing.
pub(crate) fn skip_interval(
    params: &Params,
    wanted: Wanted,
    reader: &mut BitReader,
    values: &mut Block,
) -> Result<u64, Fault>
    requires begins { reader.old.pos ≡ wanted.start }
    requires wanted { IsWantedNext params.now wanted.count wanted.limit reader.old.list
        wanted.first wanted.first reader.old.pos }
    ensures ok { IfOk result (λ next.
        IsLedTo params.now wanted.count wanted.limit reader.new.list wanted.first wanted.start next
        reader.new.pos) }
    ensures refuses { IfErr result
        (λ fault. IsFaultBefore params.now wanted.count wanted.limit reader.old.list wanted.first
        wanted.start
        (wanted.first + params.now.interval) fault) }
    ensures allowed { IsAllowed params.now }
    ensures list { reader.new.list ≡ reader.old.list }
    ensures over { IfOk result (λ next.
        IsGoneOver params.now wanted.count reader.new.list wanted.first next reader.new.pos) }
{
    let end = wanted.first + u64::from(params.interval());
    let mut block = wanted.first;
    loop {
        let place = block - wanted.first;
        block = skip_next(params, wanted, reader, block, place, values)?;
        if !goes_on(params, wanted, reader, block, end) {
            return Ok(block);
        }
    }
}

/// Returns how many samples of the blocks from `wanted.first` up to `next` are asked for.
pub(crate) fn count_asked(params: &Params, wanted: Wanted, next: u64) -> u64
    requires after { wanted.first ≤ next }
    requires few { next < most_blocks }
    ensures { result ≡ asked_len params.now wanted.count wanted.first next }
{
    let block_size = u64::from(params.block_size());
    let all = (next - wanted.first) * block_size;
    match wanted.count {
        None => all,
        Some(count) => all.min(count.saturating_sub(wanted.first * block_size)),
    }
}

/// Moves past the next coded data sets, from place `place` of an interval on, while `skip_single`
/// skips them, at most `most`: none of these blocks needs a test of its place. They may be those of
/// several intervals. Returns how many blocks it passed.
#[inline(never)]
fn skip_singles(params: &Params, reader: &mut BitReader, place: u64, most: u64) -> u64
    requires place { place < params.now.interval }
    requires unpadded { 0 < most → params.now.pad ≡ false }
    ensures { SkipsBlocks params.now place most reader.old result reader.new }
{
    // A local copy stays in registers.
    let own = *params;
    let interval = u64::from(own.interval());
    let mut at = place;
    let mut count = 0;
    while count < most {
        if !skip_single(&own, reader, has_reference(&own, at)) {
            return count;
        }
        count += 1;
        at = next_place(at, interval);
    }
    count
}

/// Returns the place in its interval of the block after the one at place `at`.
#[inline(always)]
fn next_place(at: u64, interval: u64) -> u64
    requires { at < interval }
    ensures value { result ≡ (at + 1) % interval }
    ensures within { result < interval }
{
    if at + 1 == interval { 0 } else { at + 1 }
}

/// Returns how many blocks from `block` on need no test of their place: their samples are within
/// the count or the limit. 0 if intervals are padded.
fn untested_count(params: &Params, wanted: Wanted, block: u64) -> u64
    requires few { block < most_blocks }
    requires limit { wanted.limit ≤ most_samples }
    requires counted { IfSome wanted.count (λ count. count ≤ most_samples) }
    ensures within { 0 < result
        → (block + result) * params.now.block_size ≤ unwrap_or wanted.count wanted.limit }
    ensures unpadded { 0 < result → params.now.pad ≡ false }
    ensures few { result ≤ most_samples }
{
    if params.pad() {
        return 0;
    }
    let samples = wanted.count.unwrap_or(wanted.limit);
    (samples / u64::from(params.block_size())).saturating_sub(block)
}

/// Moves past the next blocks as `skip_singles` does, from block `block` on, and past at most
/// `most`. Returns the number of the next block.
fn skip_untested(
    params: &Params,
    wanted: Wanted,
    reader: &mut BitReader,
    block: u64,
    most: u64,
) -> u64
    requires few { block < most_blocks }
    requires limit { wanted.limit ≤ most_samples }
    requires counted { IfSome wanted.count (λ count. count ≤ most_samples) }
    requires led { IsLedTo params.now wanted.count wanted.limit reader.old.list wanted.first
        wanted.start block reader.old.pos }
    ensures led { IsLedTo params.now wanted.count wanted.limit reader.new.list wanted.first
        wanted.start result reader.new.pos }
    ensures list { reader.new.list ≡ reader.old.list }
    ensures forward { block ≤ result }
    ensures few { result < most_blocks }
    ensures stays { result ≡ block → reader.new ≡ reader.old }
{
    let place = block % u64::from(params.interval());
    let untested = untested_count(params, wanted, block);
    block + skip_singles(params, reader, place, most.min(untested))
}

/// Returns whether block `next` begins an interval after the one that begins at block `first`.
fn ends_interval(params: &Params, first: u64, next: u64) -> bool
    ensures ends { result ≡ true → next % params.now.interval ≡ 0 }
    ensures forward { result ≡ true → first < next }
{
    first < next && next % u64::from(params.interval()) == 0
}

/// Returns how many blocks there are from block `block` on before one begins an interval: 0 if
/// block `block` begins one.
fn blocks_to_next_interval(params: &Params, block: u64) -> u64 {
    let interval = u64::from(params.interval());
    (interval - block % interval) % interval
}

/// Moves past the interval that begins at a wanted block, or past several whole ones: then past at
/// most `most` samples. Stops before the end of an interval only where no more blocks are wanted.
/// Returns the number of the next block. Allocates nothing.
pub(crate) fn skip_intervals(
    params: &Params,
    wanted: Wanted,
    most: u64,
    reader: &mut BitReader,
    values: &mut Block,
) -> Result<u64, Fault>
    requires begins { reader.old.pos ≡ wanted.start }
    requires wanted { IsWantedNext params.now wanted.count wanted.limit reader.old.list
        wanted.first wanted.first reader.old.pos }
    ensures ok { IfOk result (λ next.
        IsLedTo params.now wanted.count wanted.limit reader.new.list wanted.first wanted.start next
        reader.new.pos) }
    ensures refuses { IfErr result (λ fault. IsFault params.now wanted.count wanted.limit
        reader.old.list wanted.first wanted.start fault) }
    ensures allowed { IsAllowed params.now }
    ensures list { reader.new.list ≡ reader.old.list }
    ensures forward { IfOk result (λ next. wanted.first < next) }
    ensures few { IfOk result (λ next. next < most_blocks) }
    ensures ends { IfOk result (λ next. is_wanted params.now wanted.count reader.new.list next
        reader.new.pos ≡ true → next % params.now.interval ≡ 0) }
{
    params.known_allowed();
    let interval = u64::from(params.interval());
    let whole = (most / params.interval_len()).saturating_mul(interval);
    let mut block = skip_untested(params, wanted, reader, wanted.first, whole);
    loop {
        if ends_interval(params, wanted.first, block) {
            return Ok(block);
        }
        if !wants_more(params, wanted, reader, block) {
            return Ok(block);
        }
        let place = block % interval;
        let next = skip_next(params, wanted, reader, block, place, values)?;
        let left = blocks_to_next_interval(params, next);
        block = skip_untested(params, wanted, reader, next, left);
    }
}
