//! Decodes coded data: the bytes of the first samples are kept while the bits are judged, so that
//! only the later bits are read twice.

ghost use Rattle.std.specs.Prelude.{◌≡◌, ◌+◌, ◌*◌, ◌<◌, ◌≤◌, ◌^◌, max, length, vec_len, vec_capacity, IfSome, IfOk, IfErr, OnOk};
ghost use Rattle.aec_params.specs.Params.{IsAllowed, interval_len, storage_len};
ghost use Rattle.aec_params.specs.declared.fault.Fault.TheVariants.{Memory};
ghost use Rattle.aec_interval.specs.Reached.{RefusesReading};
ghost use Rattle.aec_interval.specs.Pieces.{place_at};
ghost use Rattle.aec_engine.specs.Transfers.{are_past, Taking, taking_of, Putting, putting_of, Leaves};
ghost use Rattle.aec_engine.specs.Output.{IsDecoded};
ghost use Rattle.aec_engine.specs.ReadingTwice.{KeepsFront};

use crate::engine::bit_intake::read_bits;
use crate::engine::two_readings::{
    Part, WAITING_BYTES, append_stored, buffers, deliver_range, judge_all, judge_from,
    samples_within,
};
use aec_bits::{BitBuf, Sink, Source};
use aec_interval::StreamReader;
use aec_params::{Fault, Limits, Params};
use std::alloc::Global;

/// The most bytes for which room is made before decoding, besides those of an interval.
const MAX_KEPT_BYTES: u64 = 1 << 24;

/// The most bytes of a block for which more room is made than every decoding needs. Reading a
/// longer block twice takes less time than filling fresh memory.
const MAX_SHORT_BLOCK_BYTES: usize = 32;

/// A first reading with room for fewer samples returns all samples that the caller asks for.
const FEW_PLACES: usize = 4096;

/// Returns for how many bytes room is made before decoding, besides those of an interval: for the
/// `WAITING_BYTES` of every decoding, or, if blocks are short, for two bytes for each bit of the
/// stream, if that is more, but at most `MAX_KEPT_BYTES`. So a short stream takes little memory,
/// however many samples it codes.
fn kept_room(params: &Params, bits: &BitBuf) -> usize
    ensures piece { 65536 ≤ result }
    ensures most { result ≤ 2 ^ 24 }
    ensures few { result ≤ max 65536 (2 * length bits.now.list) }
    ensures long { 32 < storage_len params.now * params.now.block_size → result ≡ 65536 }
{
    if params.storage() * params.block_size() as usize > MAX_SHORT_BLOCK_BYTES {
        return WAITING_BYTES;
    }
    WAITING_BYTES.max(bits.len().saturating_mul(2).min(MAX_KEPT_BYTES) as usize)
}

/// Returns for how many bytes room is made before decoding into a buffer, besides those of an
/// interval: `kept_room`, but if the first reading has room for fewer than `FEW_PLACES` samples,
/// only the bytes of so many. So a short answer takes little memory.
fn room_to_keep(params: &Params, bits: &BitBuf, places: usize) -> usize
    ensures most { result ≤ 2 ^ 24 }
    ensures short { places < 4096 → result ≤ 4 * places }
    ensures few { result ≤ max 65536 (2 * length bits.now.list) }
    ensures long { 32 < storage_len params.now * params.now.block_size → result ≤ 65536 }
{
    if places < FEW_PLACES {
        return 4 * places;
    }
    kept_room(params, bits)
}

/// Returns what `room_to_keep` returns, but with a count at most four bytes for each sample asked
/// for.
pub(crate) fn room_for_answer(
    params: &Params,
    bits: &BitBuf,
    count: Option<u64>,
    places: usize,
) -> usize
    ensures most { result ≤ 2 ^ 24 }
    ensures asked { IfSome count (λ n. result ≤ 4 * n) }
{
    let room = room_to_keep(params, bits, places);
    match count {
        Some(count) => room.min(count.saturating_mul(4) as usize),
        None => room,
    }
}

/// Returns room for the samples that are read at once, and for the bytes that decoding keeps: those
/// of an interval and `kept_room` more.
fn decoding_buffers(
    alloc: Global,
    params: &Params,
    bits: &BitBuf,
) -> Result<(Vec<i64>, Vec<u8>), Fault>
    ensures allowed { IsAllowed params.now }
    ensures room { IfOk result (λ made. interval_len params.now ≤ vec_capacity made.0) }
    ensures empty { IfOk result (λ made. vec_len made.1 ≡ 0) }
    ensures buffer { IfOk result
        (λ made. 65536 + 4 * interval_len params.now ≤ vec_capacity made.1) }
    ensures few { IfOk result (λ made. vec_capacity made.1
        ≤ max 65536 (2 * length bits.now.list) + 4 * interval_len params.now) }
    ensures fault { IfErr result (λ e. e ≡ Memory) }
{
    buffers(alloc, params, kept_room(params, bits))
}

/// Reads on after `before` samples whose bytes are kept, and keeps the bytes of the next samples as
/// far as `bytes` has room. Returns how many samples are then kept: the reader is after them. Fails
/// as judging does.
pub(crate) fn keep_more(
    params: &Params,
    reader: &mut StreamReader,
    before: u64,
    samples: &mut Vec<i64>,
    bytes: &mut Vec<u8>,
) -> Result<u64, Fault>
    requires settings { reader.old.settings ≡ params.now }
    requires kept { KeepsFront reader.old params.now before bytes.old.items }
    ensures kept { IfOk result (λ before. KeepsFront reader.new params.now before bytes.new.items) }
    ensures few { vec_len bytes.new ≤ vec_capacity bytes.old }
    ensures same { OnOk result (let old = reader.old in
        reader.new ≡ place_at old.settings old.count old.limit old.bits reader.new.block
        reader.new.bit) }
    ensures refuses { IfErr result (λ fault. let old = reader.old in
        RefusesReading old.settings old.count old.limit old.bits 0 0 fault) }
    ensures room { vec_capacity samples.old ≤ vec_capacity samples.new }
    ensures buffer { vec_capacity bytes.old ≤ vec_capacity bytes.new }
{
    let more = 4 * params.interval_len() as usize;
    let room = bytes.capacity();
    let mut kept = before;
    while more <= room - bytes.len()
        && reader.next_few(samples_within(room - bytes.len()), samples)?
    {
        append_stored(params, samples, bytes);
        kept += samples.len() as u64;
    }
    Ok(kept)
}

/// Reads the source whole, and writes the bytes of the samples that it codes: the first `count`, or
/// all without a count. The refusals in their order: `Read`, `StreamTooLong` and `Memory` as they
/// are met while the source is read; those of `decode_all`; `Memory`, for the room that both
/// readings take. That `Memory` comes last is no part of the contract. On these refusals nothing is
/// written and `begin` isn't called. After `begin` it fails only with `Write`, with a prefix of the
/// bytes written.
///
/// Not in the contract: while the bits are judged, the bytes of the first samples are kept as far
/// as there is room; the rest is read twice. Decoding allocates room for the bytes of the source,
/// for 2,048 samples or those of a longer interval, for the bytes of an interval, and for 64 KiB,
/// or with short blocks for up to 16 MiB. If one of these allocations fails, it ends with `Memory`
/// or with the refusal of the bits.
pub fn decode<R: Source, W: Sink>(
    alloc: Global,
    params: &Params,
    limits: Limits,
    count: Option<u64>,
    source: &mut R,
    sink: &mut W,
) -> Result<(), Fault>
    ensures { let took : Taking = taking_of R.left R.failed source.old source.new in
        let put : Putting = putting_of W.taken W.begun W.mark W.failed sink.old sink.new in
        Leaves (IsDecoded params.now limits count) took (are_past limits.bytes) put result }
{
    let bits = read_bits(alloc, source, limits.bytes())?;
    let mut reader = StreamReader::new(alloc, *params, &bits, count, limits.samples())?;
    let (mut samples, mut bytes) = match decoding_buffers(alloc, params, &bits) {
        Ok(made) => made,
        Err(fault) => {
            judge_all(params, &mut reader)?;
            return Err(fault);
        }
    };
    let kept = keep_more(params, &mut reader, 0, &mut samples, &mut bytes)?;
    let judged = judge_from(params, &mut reader, kept, kept)?;
    let part = Part {
        before: judged.before,
        first: kept,
        len: judged.total.saturating_sub(kept),
    };
    deliver_range(params, &mut reader, part, &mut samples, &mut bytes, sink)
}
