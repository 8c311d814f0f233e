//! Reads a whole stream back, or what is left of it from a bit on.

ghost use Rattle.std.specs.Prelude.{◌≡◌, ◌≤◌, ◌%◌, true, None, length, drop, IfOk, IfErr};
ghost use Rattle.std.specs.Result.{result_err};
ghost use Rattle.aec_params.specs.Reading.{IsReading};
ghost use Rattle.aec_params.specs.Limits.{most_samples};
ghost use Rattle.aec_interval.specs.Reached.{count_refusal, RefusesDecoding};
ghost use Rattle.aec_interval.specs.Offsets.{RefusesDecodingAt};

use crate::reading::{Wanted, decode_from};
use aec_bits::BitBuf;
use aec_params::{Fault, Params};
use std::alloc::Global;

/// Fails with `TooManySamples` if a sample count is above the limit.
pub(crate) fn judge_count(count: Option<u64>, limit: u64) -> Result<(), Fault>
    ensures { result_err result ≡ count_refusal limit count }
{
    match count {
        Some(count) if count > limit => Err(Fault::TooManySamples { limit }),
        _ => Ok(()),
    }
}

/// Returns the samples that coded bits decode to.
///
/// With a count, returns the first `count` samples: reads only the blocks that hold them, and
/// ignores bits after the last coded data set that is needed. Without a count, returns all samples
/// of all blocks, up to a rest of zero bits.
///
/// Fails with `TooManySamples` first, if a given count is above `limit`. Then tests each coded data
/// set in turn, and fails at the first that is refused: with `Truncated`, `ValueTooLarge` or
/// `RunTooLong` and the bit where it begins; with `TooManySamples`, without a count, if the
/// samples, including those of this set, pass the limit; with `Memory` if an allocation fails. So
/// `Memory` is returned only after at least one coded data set was read without a fault.
pub fn decode_all(
    alloc: Global,
    params: &Params,
    bits: &BitBuf,
    count: Option<u64>,
    limit: u64,
) -> Result<Vec<i64>, Fault>
    requires { limit ≤ most_samples }
    ensures ok { IfOk result (λ samples. (count_refusal limit count ≡ None)
        × IsReading params.now count limit bits.now.list samples.items) }
    ensures refuses { IfErr result
        (λ fault. RefusesDecoding params.now count limit bits.now.list fault) }
{
    judge_count(count, limit)?;
    decode_from(
        alloc,
        params,
        bits,
        Wanted {
            first: 0,
            start: 0,
            count,
            limit,
        },
    )
}

/// Returns the samples that coded bits decode to from bit `start` on, as `decode_all` does of the
/// bits from there on alone. If an interval begins at `start`, these are its samples and those of
/// the intervals after it; `interval_offsets` returns such bits.
///
/// With a count, it reads only the blocks that hold the samples asked for. It doesn't read or copy
/// the bits before `start`.
///
/// Fails as `decode_all` does of the bits from `start` on. The bit of a fault is counted from the
/// first of all bits.
pub fn decode_at(
    alloc: Global,
    params: &Params,
    bits: &BitBuf,
    start: u64,
    count: Option<u64>,
    limit: u64,
) -> Result<Vec<i64>, Fault>
    requires within { start ≤ length bits.now.list }
    requires whole_bytes { params.now.pad ≡ true → start % 8 ≡ 0 }
    requires limit { limit ≤ most_samples }
    ensures ok { IfOk result (λ samples. (count_refusal limit count ≡ None)
        × IsReading params.now count limit (drop start bits.now.list) samples.items) }
    ensures refuses { IfErr result
        (λ fault. RefusesDecodingAt params.now count limit bits.now.list start fault) }
{
    judge_count(count, limit)?;
    decode_from(
        alloc,
        params,
        bits,
        Wanted {
            first: 0,
            start,
            count,
            limit,
        },
    )
}
