//! Decodes a range of the samples of coded data.

ghost use Rattle.std.specs.Prelude.{◌≡◌, ◌+◌, ◌<◌, ◌≤◌, IfErr, OnOk};
ghost use Rattle.aec_params.specs.declared.fault.Fault.TheVariants.{OutOfRange};
ghost use Rattle.aec_engine.specs.Transfers.{are_past, Taking, taking_of, Putting, putting_of, Leaves};
ghost use Rattle.aec_engine.specs.Output.{IsRanged};

use crate::engine::bit_intake::read_bits;
use crate::engine::two_readings::{Part, judge_samples, write_range};
use aec_bits::{Sink, Source};
use aec_interval::StreamReader;
use aec_params::{Fault, Limits, Params};
use std::alloc::Global;

/// Fails with `OutOfRange` if `first + len` exceeds `total`.
pub(crate) fn judge_range(first: u64, len: u64, total: u64) -> Result<(), Fault>
    ensures within { OnOk result (first + len ≤ total) }
    ensures refuses { IfErr result (λ fault. (fault ≡ OutOfRange total) × (total < first + len)) }
{
    match first.checked_add(len) {
        Some(end) if end <= total => Ok(()),
        _ => Err(Fault::OutOfRange { count: total }),
    }
}

/// Reads the source whole, and writes the bytes of `len` of the samples that it codes, from place
/// `first` on. The refusals in their order: those of `decode`, so that coded data after the range
/// are judged too; `OutOfRange` if the range passes the samples, whose number is `count` if one is
/// given; `Memory`. That `Memory` comes last is no part of the contract. On these refusals nothing
/// is written and `begin` isn't called. After `begin` it fails only with `Write`, with a prefix of
/// the bytes written. Not in the contract: no samples are kept while the bits are judged, and only
/// the intervals that the range lies in are read again.
pub fn range<R: Source, W: Sink>(
    alloc: Global,
    params: &Params,
    limits: Limits,
    count: Option<u64>,
    first: u64,
    len: u64,
    source: &mut R,
    sink: &mut W,
) -> Result<(), Fault>
    ensures { let took : Taking = taking_of R.left R.failed source.old source.new in
        let put : Putting = putting_of W.taken W.begun W.mark W.failed sink.old sink.new in
        Leaves (IsRanged params.now limits count first len) took (are_past limits.bytes) put
        result }
{
    let bits = read_bits(alloc, source, limits.bytes())?;
    let mut reader = StreamReader::new(alloc, *params, &bits, count, limits.samples())?;
    let judged = judge_samples(params, &mut reader, first)?;
    judge_range(first, len, judged.total)?;
    let part = Part {
        before: judged.before,
        first,
        len,
    };
    write_range(alloc, params, &mut reader, part, sink)
}
