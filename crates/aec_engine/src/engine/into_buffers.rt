//! Decodes coded bytes in memory into a buffer. If the first reading returns all samples asked for,
//! they are written to the buffer at once. Else the bytes of the first samples are kept while
//! judging, and a second reading writes the rest to the buffer. The buffer can't be a `Sink`:
//! contracts say what the sink that an engine returns has taken, but not that it still has the same
//! buffer.

ghost use Rattle.std.specs.Prelude.{◌≡◌, ℕ, ◌+◌, ◌*◌, ◌<◌, ◌≤◌, ◌^◌, ◌++◌, List, [], ℤ, None, Some, Ok, false, length, take, drop, max, vec_len, vec_capacity, IsOk, IfOk, IfErr, OnOk, ◌↔◌, IsTrue};
ghost use Rattle.std.specs.List.{AllByRecursion};
ghost use Rattle.aec_params.specs.declared.fault.Fault.TheVariants.{Memory};
ghost use Rattle.aec_params.specs.Params.{IsHeld, interval_len, storage_len};
ghost use Rattle.aec_params.specs.Limits.{most_samples};
ghost use Rattle.aec_engine.specs.Transfers.{input_of};
ghost use Rattle.aec_engine.specs.Output.{all_stored, samples_from, IsDecoded, IsRanged};
ghost use Rattle.aec_interval.specs.Reached.{count_refusal, RefusesReading};
ghost use Rattle.aec_interval.specs.Pieces.{place_at};
ghost use Rattle.aec_engine.specs.ReadingTwice.{AreSamplesOf, IsAtStart, IsBegun, KeepsFront, StoresPart, DecodesBits, CutsBits};
ghost use Rattle.aec_engine.specs.Buffers.{FillsOne, OrMemory};

use crate::engine::bit_intake::bits_of;
use crate::engine::decoding::{keep_more, room_for_answer};
use crate::engine::ranging::judge_range;
use crate::engine::terms::Terms;
use crate::engine::two_readings::{
    Part, append_stored, judge_from, judge_samples, part_of, room_at_once,
};
use aec_bits::BitBuf;
use aec_interval::StreamReader;
use aec_params::{Fault, Limits, Params, put_samples};
use std::alloc::Global;

/// Writes the bytes of samples after the first `at` bytes of a buffer. Returns where they end.
fn put_behind(params: &Params, samples: &[i64], at: usize, out: &mut [u8]) -> usize
    requires held { AllByRecursion (IsHeld params.now) samples.now }
    requires room { at + storage_len params.now * length samples.now ≤ length out.old }
    ensures bytes { out.new ≡ take at out.old ++ (all_stored params.now samples.now
        ++ drop (at + storage_len params.now * length samples.now) out.old) }
    ensures end { result ≡ at + storage_len params.now * length samples.now }
{
    let end = at + params.storage() * samples.len();
    put_samples(params, samples, &mut out[at..end]);
    end
}

/// Reads the samples from where the reader is up to the last of a part, and writes the bytes of the
/// part to `out`, which has their length. Never fails with `Memory`.
fn fill_range(
    params: &Params,
    reader: &mut StreamReader,
    part: Part,
    samples: &mut Vec<i64>,
    out: &mut [u8],
) -> Result<(), Fault>
    requires settings { reader.old.settings ≡ params.now }
    requires read { (xs : List ℤ) × AreSamplesOf reader.old xs
        × (length out.old ≡ storage_len params.now
        * length (samples_from part.first part.len xs)) }
    requires begun { IsBegun reader.old part.before part.first }
    requires room { 0 < part.len → interval_len params.now ≤ vec_capacity samples.old }
    ensures sound { IsOk result }
    ensures filled { (xs : List ℤ) → AreSamplesOf reader.old xs
        → out.new ≡ all_stored params.now (samples_from part.first part.len xs) }
{
    params.known_allowed();
    let mut skip = part.first - part.before;
    let mut left = part.len;
    let mut at = 0;
    while left > 0 && reader.next_few(samples.capacity() as u64, samples)? {
        let wanted = part_of(samples, skip, left);
        left -= wanted.len() as u64;
        at = put_behind(params, wanted, at, out);
        skip = skip.saturating_sub(samples.len() as u64);
    }
    Ok(())
}

/// Writes the bytes of a part of the samples to the front of a buffer, if there is room for them.
/// Returns how many bytes they take. Fails with `Memory` if the allocation for an interval of
/// samples fails.
fn put_range_front(
    alloc: Global,
    params: &Params,
    reader: &mut StreamReader,
    part: Part,
    out: &mut [u8],
) -> Result<u64, Fault>
    requires settings { reader.old.settings ≡ params.now }
    requires read { (xs : List ℤ) × AreSamplesOf reader.old xs
        × (length (samples_from part.first part.len xs) ≡ part.len) }
    requires few { part.len ≤ most_samples }
    requires begun { IsBegun reader.old part.before part.first }
    ensures { (xs : List ℤ) → AreSamplesOf reader.old xs
        → FillsOne (StoresPart params.now part.first part.len xs) out.old out.new result }
{
    let size = part.len * params.storage() as u64;
    if size > out.len() as u64 {
        return Ok(size);
    }
    let mut samples = room_at_once(alloc, params)?;
    let front = &mut out[..size as usize];
    fill_range(params, reader, part, &mut samples, front)?;
    Ok(size)
}

/// Writes kept bytes, and after them the bytes of the rest of the samples, to the front of a
/// buffer, if there is room for them. Returns how many bytes they take. Allocates nothing.
fn put_kept(
    params: &Params,
    reader: &mut StreamReader,
    bytes: &[u8],
    rest: Part,
    samples: &mut Vec<i64>,
    out: &mut [u8],
) -> Result<u64, Fault>
    requires settings { reader.old.settings ≡ params.now }
    requires read { (xs : List ℤ) × AreSamplesOf reader.old xs
        × (length (samples_from rest.first rest.len xs) ≡ rest.len) }
    requires few { rest.len ≤ most_samples }
    requires begun { IsBegun reader.old rest.before rest.first }
    requires room { 0 < rest.len → interval_len params.now ≤ vec_capacity samples.old }
    ensures { (xs : List ℤ) → AreSamplesOf reader.old xs
        → FillsOne (λ answer. answer ≡ Ok (bytes.now
        ++ all_stored params.now (samples_from rest.first rest.len xs))) out.old out.new result }
{
    let size = bytes.len() + rest.len as usize * params.storage();
    if size > out.len() {
        return Ok(size as u64);
    }
    out[..bytes.len()].copy_from_slice(bytes);
    fill_range(params, reader, rest, samples, &mut out[bytes.len()..size])?;
    Ok(size as u64)
}

/// The first reading reads at most this many samples, or one interval if that is longer.
const MAX_FIRST_SAMPLES: u64 = 4096;

/// Returns for how many samples room is made at first: for the blocks of the samples asked for, but
/// at most for `MAX_FIRST_SAMPLES`, or for one longer interval.
fn first_samples(params: &Params, count: Option<u64>) -> usize
    ensures { result ≤ max 4096 (interval_len params.now) }
{
    let most = params.interval_len().max(MAX_FIRST_SAMPLES);
    let asked = count.unwrap_or(most).min(most);
    let blocks = asked.div_ceil(u64::from(params.block_size()));
    (blocks * u64::from(params.block_size())).min(most) as usize
}

/// Returns room for the samples of the first reading.
fn first_room(alloc: Global, params: &Params, count: Option<u64>) -> Result<Vec<i64>, Fault>
    ensures fault { IfErr result (λ e. e ≡ Memory) }
{
    let samples = Vec::with_capacity(alloc, first_samples(params, count))?;
    Ok(samples)
}

/// Returns whether `samples` is the number of samples that are asked for.
fn are_all(count: Option<u64>, samples: usize) -> bool
    ensures { IsTrue result ↔ (count ≡ Some samples) }
{
    match count {
        Some(asked) => asked == samples as u64,
        None => false,
    }
}

/// Reads samples from the first bit on with one call of `next_few`: at most `MAX_FIRST_SAMPLES`, or
/// one interval if it is longer. The refusals are those of judging.
fn read_first(
    params: &Params,
    reader: &mut StreamReader,
    samples: &mut Vec<i64>,
) -> Result<(), Fault>
    requires start { IsAtStart reader.old params.now }
    ensures kept { OnOk result (KeepsFront reader.new params.now (vec_len samples.new)
        (all_stored params.now samples.new.items)) }
    ensures held { OnOk result (AllByRecursion (IsHeld params.now) samples.new.items) }
    ensures most { OnOk result (vec_len samples.new ≤ max 4096 (interval_len params.now)) }
    ensures same { OnOk result (let old = reader.old in
        reader.new ≡ place_at old.settings old.count old.limit old.bits reader.new.block
        reader.new.bit) }
    ensures refuses { IfErr result (λ fault. let old = reader.old in
        RefusesReading old.settings old.count old.limit old.bits 0 0 fault) }
{
    params.known_allowed();
    let _more = reader.next_few(MAX_FIRST_SAMPLES, samples)?;
    Ok(())
}

/// Writes the bytes of samples to the front of a buffer, if there is room for them. Returns how
/// many bytes they take.
pub(crate) fn put_first(params: &Params, samples: &[i64], out: &mut [u8]) -> u64
    requires held { AllByRecursion (IsHeld params.now) samples.now }
    ensures { FillsOne (λ answer. answer ≡ Ok (all_stored params.now samples.now)) out.old out.new
        (Ok result) }
{
    let size = params.storage() * samples.len();
    if size > out.len() {
        return size as u64;
    }
    let _end = put_behind(params, samples, 0, out);
    size as u64
}

/// Returns an empty list with room for `len` bytes and the bytes of an interval, or for those of
/// `count` samples if they are more.
fn roomy_bytes(alloc: Global, params: &Params, count: usize, len: usize) -> Result<Vec<u8>, Fault>
    requires most { count ≤ max 4096 (interval_len params.now) }
    requires few { len ≤ 2 ^ 24 }
    ensures empty { IfOk result (λ bytes. bytes.items ≡ []) }
    ensures room { IfOk result (λ bytes. vec_len bytes + 4 * count ≤ vec_capacity bytes) }
    ensures few { IfOk result
        (λ bytes. vec_capacity bytes ≤ max 16384 (len + 4 * interval_len params.now)) }
    ensures fault { IfErr result (λ e. e ≡ Memory) }
{
    let room = (len + 4 * params.interval_len() as usize).max(4 * count);
    let bytes = Vec::with_capacity(alloc, room)?;
    Ok(bytes)
}

/// Returns the bytes of the samples that were read first, in a list that has room for `len` bytes
/// and the bytes of an interval.
fn first_bytes(
    alloc: Global,
    params: &Params,
    samples: &[i64],
    len: usize,
) -> Result<Vec<u8>, Fault>
    requires held { AllByRecursion (IsHeld params.now) samples.now }
    requires most { length samples.now ≤ max 4096 (interval_len params.now) }
    requires few { len ≤ 2 ^ 24 }
    ensures items { IfOk result (λ bytes. bytes.items ≡ all_stored params.now samples.now) }
    ensures fault { IfErr result (λ e. e ≡ Memory) }
{
    let mut bytes = roomy_bytes(alloc, params, samples.len(), len)?;
    append_stored(params, samples, &mut bytes);
    Ok(bytes)
}

/// Makes room for the samples of an interval if `left` samples have to be read again. Drops the
/// samples that are there first, so that they take no memory beside it.
fn room_for_rest(params: &Params, left: u64, samples: &mut Vec<i64>) -> Result<(), Fault>
    ensures room { OnOk result (0 < left → interval_len params.now ≤ vec_capacity samples.new) }
    ensures fault { IfErr result (λ e. e ≡ Memory) }
{
    if left > 0 {
        samples.clear();
        samples.reserve(params.interval_len() as usize)?;
    }
    Ok(())
}

/// Keeps the bytes of the samples that were read first and of the next ones, in a list with room
/// for `room` bytes and those of an interval, and judges the bits after them. Then writes the kept
/// bytes to the front of a buffer, if there is room, and after them the bytes of the rest, which it
/// reads again.
fn decode_rest_into(
    alloc: Global,
    params: &Params,
    reader: &mut StreamReader,
    room: usize,
    samples: &mut Vec<i64>,
    out: &mut [u8],
) -> Result<u64, Fault>
    requires room { room ≤ 2 ^ 24 }
    requires settings { reader.old.settings ≡ params.now }
    requires counted { count_refusal reader.old.limit reader.old.count ≡ None }
    requires kept { KeepsFront reader.old params.now (vec_len samples.old)
        (all_stored params.now samples.old.items) }
    requires held { AllByRecursion (IsHeld params.now) samples.old.items }
    requires most { vec_len samples.old ≤ max 4096 (interval_len params.now) }
    requires limit { reader.old.limit ≤ most_samples }
    ensures { FillsOne (DecodesBits params.now reader.old.count reader.old.limit reader.old.bits)
        out.old out.new result }
{
    params.known_allowed();
    let mut bytes = first_bytes(alloc, params, samples, room)?;
    let first = samples.len() as u64;
    let kept = keep_more(params, reader, first, samples, &mut bytes)?;
    let judged = judge_from(params, reader, kept, kept)?;
    let left = judged.total.saturating_sub(kept);
    room_for_rest(params, left, samples)?;
    let rest = Part {
        before: judged.before,
        first: kept,
        len: left,
    };
    put_kept(params, reader, &bytes, rest, samples, out)
}

/// Reads the first samples. If they are all that are asked for, writes their bytes to the front of
/// a buffer, if there is room; else goes on as `decode_rest_into` does.
pub(crate) fn decode_bits_into(
    alloc: Global,
    terms: &Terms,
    bits: &BitBuf,
    out: &mut [u8],
) -> Result<u64, Fault>
    ensures { FillsOne (DecodesBits terms.now.params terms.now.count terms.now.limits.samples
        bits.now.list) out.old out.new result }
{
    let params = &terms.params;
    params.known_allowed();
    let mut reader = StreamReader::new(alloc, *params, bits, terms.count, terms.limits.samples())?;
    let mut samples = first_room(alloc, params, terms.count)?;
    read_first(params, &mut reader, &mut samples)?;
    if are_all(terms.count, samples.len()) {
        return Ok(put_first(params, &samples, out));
    }
    let room = room_for_answer(params, bits, terms.count, samples.capacity());
    decode_rest_into(alloc, params, &mut reader, room, &mut samples, out)
}

/// Decodes coded bytes, and writes the stored bytes of the samples to the front of a buffer if
/// there is room for all of them. Changes no other byte of the buffer. Returns how many bytes the
/// samples take. Fails as `decode_bytes` does; the buffer is unchanged then.
///
/// Allocates room for the coded bytes, and for an interval of samples, or more but at most 4,096.
/// Unless a count is given and the first reading returns all samples, it also allocates room for
/// the bytes that are kept while the coded bytes are judged: four bytes for each sample of an
/// interval, and 64 KiB, or with short blocks up to 16 MiB (with a count, at most four
/// bytes for each sample asked for). The samples after the kept bytes are read twice.
pub fn decode_into(
    alloc: Global,
    params: &Params,
    limits: Limits,
    count: Option<u64>,
    coded: &[u8],
    out: &mut [u8],
) -> Result<u64, Fault>
    ensures { FillsOne (OrMemory (IsDecoded params.now limits count (input_of coded.now false)))
        out.old out.new result }
{
    let bits = bits_of(alloc, coded, limits.bytes())?;
    let terms = Terms {
        params: *params,
        limits,
        count,
    };
    decode_bits_into(alloc, &terms, &bits, out)
}

/// Reads coded bits twice: first it judges them and the range, then it reads from the last interval
/// that begins at or before the range, and writes the bytes of the range to the front of a buffer,
/// if there is room.
fn range_bits_into(
    alloc: Global,
    terms: &Terms,
    first: u64,
    len: u64,
    bits: &BitBuf,
    out: &mut [u8],
) -> Result<u64, Fault>
    ensures { FillsOne (CutsBits terms.now.params terms.now.count terms.now.limits.samples first len
        bits.now.list) out.old out.new result }
{
    let params = &terms.params;
    params.known_allowed();
    let mut reader = StreamReader::new(alloc, *params, bits, terms.count, terms.limits.samples())?;
    let judged = judge_samples(params, &mut reader, first)?;
    judge_range(first, len, judged.total)?;
    let part = Part {
        before: judged.before,
        first,
        len,
    };
    put_range_front(alloc, params, &mut reader, part, out)
}

/// Does the same as `decode_into` for `len` of the samples, from place `first` on. Fails as
/// `range_bytes` does.
pub fn range_into(
    alloc: Global,
    params: &Params,
    limits: Limits,
    count: Option<u64>,
    first: u64,
    len: u64,
    coded: &[u8],
    out: &mut [u8],
) -> Result<u64, Fault>
    ensures { FillsOne (OrMemory
        (IsRanged params.now limits count first len (input_of coded.now false)))
        out.old out.new result }
{
    let bits = bits_of(alloc, coded, limits.bytes())?;
    let terms = Terms {
        params: *params,
        limits,
        count,
    };
    range_bits_into(alloc, &terms, first, len, &bits, out)
}
