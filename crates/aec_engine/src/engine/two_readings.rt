//! Reads coded bits twice: once to judge them, and once to write their samples.

ghost use Rattle.std.specs.Prelude.{◌≡◌, ℕ, ◌+◌, ◌*◌, ◌^◌, ◌<◌, ◌≤◌, ◌++◌, [], max, List, ℤ, length, vec_len, vec_capacity, IfOk, IfErr, OnOk, OnErr};
ghost use Rattle.std.specs.List.{AllByRecursion};
ghost use Rattle.std.specs.Io.KnownBytes.{Appends, Keeps};
ghost use Rattle.aec_params.specs.declared.fault.Fault.TheVariants.{Memory, Write as WriteFault};
ghost use Rattle.aec_params.specs.Params.{IsAllowed, IsHeld, interval_len};
ghost use Rattle.aec_bits.specs.Devices.{counted, AppendsFront};
ghost use Rattle.aec_params.specs.Faults.{IsFault};
ghost use Rattle.aec_interval.specs.Pieces.{IsPlace, place_at};
ghost use Rattle.aec_engine.specs.Output.{all_stored, samples_from};
ghost use Rattle.aec_engine.specs.Transfers.{Putting, putting_of};
ghost use Rattle.aec_engine.specs.ReadingTwice.{AreSamplesOf, EndsAt, HasSpare, HaveSamples, IsAtStart, IsBegun, IsReadyAt, Judges, SettlesOne, StoresPart};
ghost use Rattle.aec_engine.specs.Delivering.{Delivers, HaveRoom, PutsAllOrFront, PutsPart, SinkState, StaysBegun, sink_state};

use aec_bits::{Sink, put_all};
use aec_interval::{ReachedPlace, StreamReader};
use aec_params::{Fault, Params, put_samples};
use std::alloc::Global;

/// A place where an interval begins or where all is read, and how many samples lie before it.
#[derive(Clone, Copy)]
struct Begin {
    place: ReachedPlace,
    before: u64,
}

/// Returns the one of two places from which a range is read: `here`, the later one, unless the
/// range begins before it.
fn last_begin(noted: Begin, here: Begin, first: u64) -> Begin
    ensures here { here.before ≤ first → result ≡ here }
    ensures noted { first < here.before → result ≡ noted }
{
    if here.before <= first { here } else { noted }
}

/// Goes back to a place. Returns the bit where the reader was until then.
fn seek_from(reader: &mut StreamReader, place: ReachedPlace) -> u64
    requires reached { let old = reader.old in
        IsPlace (place_at old.settings old.count old.limit old.bits place.block place.bit) }
    ensures bit { result ≡ reader.old.bit }
    ensures back { let old = reader.old in
        reader.new ≡ place_at old.settings old.count old.limit old.bits place.block place.bit }
{
    let end = reader.place().bit;
    reader.seek(place);
    end
}

/// Returns how many samples `skip_few` may pass after `before` samples: only up to sample `first`,
/// so that it stops at the last interval that begins there or before; after `first`, any number.
fn most_at_once(before: u64, first: u64) -> u64
    ensures { before < first → before + result ≤ first }
{
    if before < first {
        first - before
    } else {
        u64::MAX
    }
}

/// The result of judging: the number of samples, how many of them lie before the place to which the
/// reader went back, and how many bits they were read from.
#[derive(Clone, Copy)]
pub(crate) struct Judged {
    pub(crate) total: u64,
    pub(crate) before: u64,
    pub(crate) bits: u64,
}

/// Judges all samples from where the reader is, after `before` samples, and goes back to the last
/// interval that it passed and that begins at or before sample `first`. It fails only with the
/// fault of the bits.
pub(crate) fn judge_from(
    params: &Params,
    reader: &mut StreamReader,
    before: u64,
    first: u64,
) -> Result<Judged, Fault>
    requires settings { reader.old.settings ≡ params.now }
    requires begun { IsBegun reader.old before first }
    ensures ok { IfOk result (λ judged. HaveSamples reader.old judged.total) }
    ensures bits { IfOk result (λ judged. EndsAt reader.old judged.bits) }
    ensures begun { IfOk result (λ judged. IsBegun reader.new judged.before first) }
    ensures same { OnOk result (let old = reader.old in
        reader.new ≡ place_at old.settings old.count old.limit old.bits reader.new.block
        reader.new.bit) }
    ensures refuses { IfErr result (λ fault. let old = reader.old in
        IsFault old.settings old.count old.limit old.bits 0 0 fault) }
{
    params.known_allowed();
    let mut total = before;
    let mut begin = Begin {
        place: reader.place(),
        before,
    };
    while let Some(len) = reader.skip_few(most_at_once(total, first))? {
        total += len;
        let here = Begin {
            place: reader.place(),
            before: total,
        };
        begin = last_begin(begin, here, first);
    }
    let bits = seek_from(reader, begin.place);
    Ok(Judged {
        total,
        before: begin.before,
        bits,
    })
}

/// Does what `judge_from` does, from the first bit on.
pub(crate) fn judge_samples(
    params: &Params,
    reader: &mut StreamReader,
    first: u64,
) -> Result<Judged, Fault>
    requires start { IsAtStart reader.old params.now }
    ensures ok { IfOk result (λ judged. HaveSamples reader.old judged.total) }
    ensures bits { IfOk result (λ judged. EndsAt reader.old judged.bits) }
    ensures begun { IfOk result (λ judged. IsBegun reader.new judged.before first) }
    ensures same { OnOk result (let old = reader.old in
        reader.new ≡ place_at old.settings old.count old.limit old.bits reader.new.block
        reader.new.bit) }
    ensures refuses { IfErr result (λ fault. let old = reader.old in
        IsFault old.settings old.count old.limit old.bits 0 0 fault) }
{
    judge_from(params, reader, 0, first)
}

/// Judges all samples from the first bit on, and goes back to that bit. Fails only with the fault
/// of the bits. Allocates nothing.
pub(crate) fn judge_all(params: &Params, reader: &mut StreamReader) -> Result<Judged, Fault>
    requires start { IsAtStart reader.old params.now }
    ensures ok { IfOk result (λ judged. Judges reader.old reader.new judged.bits judged.total) }
    ensures refuses { IfErr result
        (λ fault. IsFault reader.old.settings reader.old.count reader.old.limit
        reader.old.bits 0 0 fault) }
{
    let judged = judge_samples(params, reader, 0)?;
    reader.restart();
    Ok(judged)
}

/// A part of the samples: `len` of them from place `first` on. `before` samples lie before the
/// reader that is to read the part.
#[derive(Clone, Copy)]
pub(crate) struct Part {
    pub(crate) before: u64,
    pub(crate) first: u64,
    pub(crate) len: u64,
}

/// Returns the samples after the first `skip`, at most `left` of them.
pub(crate) fn part_of(samples: &[i64], skip: u64, left: u64) -> &[i64]
    ensures { result.now ≡ samples_from skip left samples.now }
{
    let rest = &samples[(skip as usize).min(samples.len())..];
    &rest[..(left as usize).min(rest.len())]
}

/// Returns a number of samples whose bytes fit into this many bytes.
pub(crate) fn samples_within(bytes: usize) -> u64
    ensures fit { 4 * result ≤ bytes }
{
    bytes as u64 / 4
}

/// The most samples whose bytes are appended at once: so few that the processor's nearest memory
/// holds their cleared bytes until these are filled.
const SAMPLES_STORED_AT_ONCE: usize = 256;

/// Appends the bytes of samples. Allocates nothing.
pub(crate) fn append_stored(params: &Params, samples: &[i64], bytes: &mut Vec<u8>)
    requires held { AllByRecursion (IsHeld params.now) samples.now }
    requires room { vec_len bytes.old + 4 * length samples.now ≤ vec_capacity bytes.old }
    ensures items { bytes.new.items ≡ bytes.old.items ++ all_stored params.now samples.now }
    ensures spare { HasSpare bytes.old bytes.new (4 * length samples.now) }
{
    let mut left = samples;
    while !left.is_empty() {
        let (part, behind) = left.split_at(left.len().min(SAMPLES_STORED_AT_ONCE));
        append_part(params, part, bytes);
        left = behind;
    }
}

/// Appends the bytes of a few samples: clears places for all of them, and then fills these places.
fn append_part(params: &Params, samples: &[i64], bytes: &mut Vec<u8>)
    requires held { AllByRecursion (IsHeld params.now) samples.now }
    requires room { vec_len bytes.old + 4 * length samples.now ≤ vec_capacity bytes.old }
    ensures items { bytes.new.items ≡ bytes.old.items ++ all_stored params.now samples.now }
    ensures spare { HasSpare bytes.old bytes.new (4 * length samples.now) }
{
    let start = bytes.len();
    bytes
        .resize(start + params.storage() * samples.len(), 0)
        .unwrap();
    put_samples(params, samples, &mut bytes[start..]);
}

/// The most samples of short intervals that are read together.
pub(crate) const SAMPLES_AT_ONCE: usize = 2048;

/// Once this many bytes wait in memory, they are written to the sink.
pub(crate) const WAITING_BYTES: usize = 65536;

/// Writes all bytes that wait to the sink, and empties `bytes`.
fn put_waiting<W: Sink>(bytes: &mut Vec<u8>, sink: &mut W) -> Result<(), Fault>
    ensures puts { PutsAllOrFront (W.taken sink.old) (W.taken sink.new) bytes.old.items result }
    ensures none { OnOk result (bytes.new.items ≡ []) }
    ensures stays { let state : W → SinkState = sink_state W.begun W.mark W.failed in
        StaysBegun (state sink.old) (state sink.new) result }
    ensures capacity { vec_capacity bytes.old ≤ vec_capacity bytes.new }
{
    put_all(sink, bytes)?;
    bytes.clear();
    Ok(())
}

/// Appends the bytes of samples to those that wait, and writes all of them to the sink once they
/// are a piece.
fn put_part<W: Sink>(
    params: &Params,
    samples: &[i64],
    bytes: &mut Vec<u8>,
    sink: &mut W,
) -> Result<(), Fault>
    requires held { AllByRecursion (IsHeld params.now) samples.now }
    requires room { vec_len bytes.old + 4 * length samples.now ≤ vec_capacity bytes.old }
    ensures ok { OnOk result (PutsPart (W.taken sink.old) (W.taken sink.new) bytes.old.items
        (all_stored params.now samples.now) bytes.new.items) }
    ensures front { OnErr result
        (AppendsFront (W.taken sink.old) (W.taken sink.new)
        (bytes.old.items ++ all_stored params.now samples.now)) }
    ensures stays { let state : W → SinkState = sink_state W.begun W.mark W.failed in
        StaysBegun (state sink.old) (state sink.new) result }
    ensures few { OnOk result (vec_len bytes.new < 65536) }
    ensures capacity { vec_capacity bytes.old ≤ vec_capacity bytes.new }
{
    append_stored(params, samples, bytes);
    if bytes.len() >= WAITING_BYTES {
        put_waiting(bytes, sink)?;
    }
    Ok(())
}

/// Reads the samples from where the reader is up to the last of a part, and writes the bytes of the
/// part to the sink. Never fails with `Memory`.
fn put_range<W: Sink>(
    params: &Params,
    reader: &mut StreamReader,
    part: Part,
    samples: &mut Vec<i64>,
    bytes: &mut Vec<u8>,
    sink: &mut W,
) -> Result<(), Fault>
    requires ready { IsReadyAt reader.old params.now part.before part.first }
    requires room { HaveRoom params.now (vec_capacity samples.old) (vec_capacity bytes.old) }
    requires empty { vec_len bytes.old ≡ 0 }
    ensures puts { (xs : List ℤ) → AreSamplesOf reader.old xs
        → PutsAllOrFront (W.taken sink.old) (W.taken sink.new)
        (all_stored params.now (samples_from part.first part.len xs)) result }
    ensures stays { let state : W → SinkState = sink_state W.begun W.mark W.failed in
        StaysBegun (state sink.old) (state sink.new) result }
{
    let mut skip = part.first - part.before;
    let mut left = part.len;
    while left > 0 && reader.next_few(samples_within(bytes.capacity() - bytes.len()), samples)? {
        let wanted = part_of(samples, skip, left);
        left -= wanted.len() as u64;
        put_part(params, wanted, bytes, sink)?;
        skip = skip.saturating_sub(samples.len() as u64);
    }
    put_all(sink, bytes)
}

/// Calls `begin`, and writes all bytes that wait. Fails with `Write` if the sink fails.
#[tactic(auto, using(crate::proofs::PutRangeLemmas::begun_then, crate::proofs::PutRangeLemmas::begun_front, crate::proofs::PutRangeLemmas::front_none))]
fn begin_with<W: Sink>(bytes: &mut Vec<u8>, sink: &mut W) -> Result<(), Fault>
    ensures delivers { let put : Putting
        = putting_of W.taken W.begun W.mark W.failed sink.old sink.new in
        Delivers bytes.old.items put result }
    ensures none { OnOk result (bytes.new.items ≡ []) }
    ensures capacity { vec_capacity bytes.old ≤ vec_capacity bytes.new }
{
    sink.begin()?;
    put_waiting(bytes, sink)
}

/// Calls `begin`, writes all bytes that wait, and then a part of the samples, read again. Fails
/// with `Write` if the sink fails.
#[tactic(auto, using(crate::proofs::PutRangeLemmas::puts_behind, crate::proofs::PutRangeLemmas::front_behind))]
pub(crate) fn deliver_range<W: Sink>(
    params: &Params,
    reader: &mut StreamReader,
    part: Part,
    samples: &mut Vec<i64>,
    bytes: &mut Vec<u8>,
    sink: &mut W,
) -> Result<(), Fault>
    requires ready { IsReadyAt reader.old params.now part.before part.first }
    requires room { HaveRoom params.now (vec_capacity samples.old) (vec_capacity bytes.old) }
    ensures delivers { let put : Putting
        = putting_of W.taken W.begun W.mark W.failed sink.old sink.new in
        (xs : List ℤ) → AreSamplesOf reader.old xs
        → Delivers (bytes.old.items ++ all_stored params.now (samples_from part.first part.len xs))
        put result }
{
    begin_with(bytes, sink)?;
    put_range(params, reader, part, samples, bytes, sink)
}

/// Returns room for `SAMPLES_AT_ONCE`, or for those of an interval if they are more.
pub(crate) fn room_at_once(alloc: Global, params: &Params) -> Result<Vec<i64>, Fault>
    ensures allowed { IsAllowed params.now }
    ensures room { IfOk result
        (λ samples. vec_capacity samples ≡ max 2048 (interval_len params.now)) }
    ensures fault { IfErr result (λ e. e ≡ Memory) }
{
    let samples = Vec::with_capacity(alloc, SAMPLES_AT_ONCE.max(params.interval_len() as usize))?;
    Ok(samples)
}

/// Returns room for the samples that are read at once, and room for `len` bytes and the bytes of an
/// interval, no more.
pub(crate) fn buffers(
    alloc: Global,
    params: &Params,
    len: usize,
) -> Result<(Vec<i64>, Vec<u8>), Fault>
    requires piece { 65536 ≤ len }
    requires few { len ≤ 2 ^ 24 }
    ensures allowed { IsAllowed params.now }
    ensures room { IfOk result (λ made. interval_len params.now ≤ vec_capacity made.0) }
    ensures empty { IfOk result (λ made. vec_len made.1 ≡ 0) }
    ensures buffer { IfOk result
        (λ made. 65536 + 4 * interval_len params.now ≤ vec_capacity made.1) }
    ensures few { IfOk result (λ made. (vec_capacity made.0 ≤ max (interval_len params.now) 2048)
        × (vec_capacity made.1 ≤ len + 4 * interval_len params.now)) }
    ensures fault { IfErr result (λ e. e ≡ Memory) }
{
    let samples = room_at_once(alloc, params)?;
    let bytes = Vec::with_capacity(alloc, len + 4 * params.interval_len() as usize)?;
    Ok((samples, bytes))
}

/// Makes room, calls `begin`, and writes the bytes of a part of the samples. Fails with `Memory` if
/// an allocation fails; `begin` isn't called then.
pub(crate) fn write_range<W: Sink>(
    alloc: Global,
    params: &Params,
    reader: &mut StreamReader,
    part: Part,
    sink: &mut W,
) -> Result<(), Fault>
    requires ready { IsReadyAt reader.old params.now part.before part.first }
    ensures { let put : Putting = putting_of W.taken W.begun W.mark W.failed sink.old sink.new in
        (xs : List ℤ) → AreSamplesOf reader.old xs
        → SettlesOne (StoresPart params.now part.first part.len xs) put result }
{
    let (mut samples, mut bytes) = buffers(alloc, params, WAITING_BYTES)?;
    deliver_range(params, reader, part, &mut samples, &mut bytes, sink)
}
