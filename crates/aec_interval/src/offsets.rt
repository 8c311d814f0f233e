//! Finds the bits where the intervals of coded bits begin.

ghost use Rattle.std.specs.Prelude.{◌≡◌, ◌≤◌, None, [], IfOk, IfErr, OnOk};
ghost use Rattle.aec_params.specs.Limits.{most_samples};
ghost use Rattle.aec_interval.specs.Reached.{count_refusal, RefusesDecoding};
ghost use Rattle.aec_interval.specs.Pieces.{place_at};
ghost use Rattle.aec_interval.specs.Offsets.{AreOffsets};

use crate::stream_reader::StreamReader;
use aec_bits::BitBuf;
use aec_params::{Fault, Params};
use std::alloc::Global;

/// Appends the offset of each interval that a reader skips from the first bit on.
fn note_offsets(
    params: &Params,
    reader: &mut StreamReader,
    offsets: &mut Vec<u64>,
) -> Result<(), Fault>
    requires start { let old = reader.old in
        old ≡ place_at params.now old.count old.limit old.bits 0 0 }
    requires few { None ≡ count_refusal reader.old.limit reader.old.count }
    requires empty { offsets.old.items ≡ [] }
    ensures ok { let old = reader.old in
        OnOk result (AreOffsets params.now old.count old.limit old.bits offsets.new.items) }
    ensures refuses { let old = reader.old in
        IfErr result (λ fault. RefusesDecoding params.now old.count old.limit old.bits fault) }
{
    params.known_allowed();
    loop {
        let begin = reader.place().bit;
        if reader.skip()?.is_none() {
            return Ok(());
        }
        offsets.push(begin)?;
    }
}

/// Returns the offset of each interval of the samples that coded bits decode to: the bit where the
/// interval begins. From an offset on, `decode_at` decodes the samples of the interval and of those
/// after it.
///
/// Skips the intervals as `StreamReader::skip` does, without making their samples. Allocates at
/// most 24 bytes for each interval.
///
/// Fails as `decode_all` does, at the same coded data set. `Memory` is returned only if the
/// allocation for an offset fails.
pub fn interval_offsets(
    alloc: Global,
    params: &Params,
    bits: &BitBuf,
    count: Option<u64>,
    limit: u64,
) -> Result<Vec<u64>, Fault>
    requires { limit ≤ most_samples }
    ensures ok { IfOk result (λ offsets. (count_refusal limit count ≡ None)
        × AreOffsets params.now count limit bits.now.list offsets.items) }
    ensures refuses { IfErr result
        (λ fault. RefusesDecoding params.now count limit bits.now.list fault) }
{
    let mut reader = StreamReader::new(alloc, *params, bits, count, limit)?;
    let mut offsets = Vec::new(alloc);
    note_offsets(params, &mut reader, &mut offsets)?;
    Ok(offsets)
}
