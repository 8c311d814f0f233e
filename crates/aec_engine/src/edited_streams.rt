//! Applies edits over the coder of intervals, beginning with no samples, and decodes the resulting
//! stream.

ghost use Rattle.std.specs.Prelude.{◌≡◌, ◌≤◌, [], length, Some, IfOk, IfErr};
ghost use Rattle.aec_params.specs.declared.fault.Fault.TheVariants.{Memory};
ghost use Rattle.aec_params.specs.Codewords.{bytes_of, bits_of_bytes};
ghost use Rattle.aec_params.specs.Reading.{IsReading};
ghost use Rattle.aec_params.specs.Streams.{stream_of};
ghost use Rattle.aec_params.specs.Limits.{most_samples};
ghost use Rattle.aec_interval.specs.IntervalFormat.{interval_format};
ghost use Rattle.aec_edit.specs.Runs.{AnswersAll, all_left};
ghost use Rattle.aec_engine.specs.EditedStreams.{IsWritten};

use crate::in_memory::memory_for_write;
use aec_bits::{BitBuf, Codec, WriteSink};
use aec_edit::laws::runs_leave_samples;
use aec_edit::{Outcome, write_edited};
use aec_interval::laws::{bits_are_read_in_one_way, streams_are_read_back};
use aec_interval::{AecCodec, decode_all};
use aec_params::{Edit, Fault, Params};
use std::alloc::Global;

/// The result of edits, and the samples that their stream is decoded to.
#[derive(Debug, Drop)]
pub struct Decoded {
    /// The outcome of each edit.
    pub outcomes: Vec<Outcome>,
    /// The coder of the edits, whose count of calls began at 0.
    pub codec: AecCodec,
    /// The bytes of the stream.
    pub stream: Vec<u8>,
    /// The samples that the stream is decoded to, given their number.
    pub samples: Vec<i64>,
}

/// The result of edits: the bytes of their stream, the bits of these bytes, and the number of
/// samples.
#[derive(Drop)]
struct Written {
    outcomes: Vec<Outcome>,
    codec: AecCodec,
    stream: Vec<u8>,
    bits: BitBuf,
    count: u64,
}

/// Applies edits, beginning with no samples, and returns the resulting stream.
fn write_stream(
    alloc: Global,
    params: &Params,
    limit: u64,
    edits: &[Edit],
) -> Result<Written, Fault>
    requires { limit ≤ most_samples }
    ensures written { IfOk result
        (λ w. IsWritten params.now limit edits.now w.outcomes.items w.codec.calls w.bits.list
        w.count) }
    ensures format { IfOk result
        (λ w. ⟦<AecCodec as Codec>⟧.format w.codec ≡ interval_format params.now) }
    ensures stream { IfOk result
        (λ w. w.stream.items ≡ bytes_of
        (stream_of params.now (all_left [] edits.now w.outcomes.items))) }
    ensures fault { IfErr result (λ fault. fault ≡ Memory) }
{
    params.known_allowed();
    let codec = AecCodec::new(alloc, *params);
    let mut sink = WriteSink::new(Vec::new(alloc));
    let edited = match write_edited(alloc, codec, limit, edits, &mut sink) {
        Ok(edited) => edited,
        Err(fault) => return Err(memory_for_write(fault)),
    };
    let stream = sink.into_inner();
    let bits = BitBuf::from_bytes(alloc, &stream)?;
    let count = edited.samples.len() as u64;
    Ok(Written {
        outcomes: edited.outcomes,
        codec: edited.codec,
        stream,
        bits,
        count,
    })
}

/// Applies edits, beginning with no samples, and decodes the bytes of the resulting stream, given
/// the number of samples.
///
/// Each edit has an outcome that is permitted for the samples and calls that earlier edits left;
/// the codec counts the calls. The bytes are the stream of the samples that the accepted edits
/// leave, and given the number of these samples the bytes decode to them. Fails only with `Memory`.
pub fn decode_edited(
    alloc: Global,
    params: &Params,
    limit: u64,
    edits: &[Edit],
) -> Result<Decoded, Fault>
    requires { limit ≤ most_samples }
    ensures answers { IfOk result (λ decoded. AnswersAll (interval_format params.now) limit [] 0
        edits.now decoded.outcomes.items decoded.codec.calls) }
    ensures format { IfOk result
        (λ decoded. ⟦<AecCodec as Codec>⟧.format decoded.codec ≡ interval_format params.now) }
    ensures stream { IfOk result (λ decoded. decoded.stream.items
        ≡ bytes_of (stream_of params.now (all_left [] edits.now decoded.outcomes.items))) }
    ensures samples { IfOk result
        (λ decoded. decoded.samples.items ≡ all_left [] edits.now decoded.outcomes.items) }
    ensures reading { IfOk result
        (λ decoded. IsReading params.now (Some (length decoded.samples.items)) limit
        (bits_of_bytes decoded.stream.items) decoded.samples.items) }
    ensures fault { IfErr result (λ fault. fault ≡ Memory) }
{
    // The clauses follow from these laws. The calls do nothing.
    streams_are_read_back();
    bits_are_read_in_one_way();
    runs_leave_samples();
    let w = write_stream(alloc, params, limit, edits)?;
    let samples = decode_all(alloc, params, &w.bits, Some(w.count), limit)?;
    Ok(Decoded {
        outcomes: w.outcomes,
        codec: w.codec,
        stream: w.stream,
        samples,
    })
}
