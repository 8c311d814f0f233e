//! Codes, decodes and cuts out ranges by C's options, into a buffer.

ghost use Rattle.std.specs.Prelude.{◌≡◌, ◌≤◌, ◌^◌, false, Some, None, Ok, Err, IfSome, IfOk, IfErr, length};
ghost use Rattle.aec_params.specs.Params.{IsAllowed, settings_fault};
ghost use Rattle.std.specs.Result.{result_err};
ghost use Rattle.aec_engine.specs.Transfers.{input_of};
ghost use Rattle.aec_engine.specs.Output.{IsDecoded, IsRanged};
ghost use Rattle.aec_engine.specs.Buffers.{FillsOne, OrMemory};
ghost use Rattle.aec_c.specs.Calls.{settings_of, count_of, most, IsCoding, IsDecoding, IsRanging};

use crate::bound::bound_of;
use crate::options::{MAX_CODED_BYTES, Options, count_of, settings_of};
use aec_engine::{decode_into, encode_into, range_into};
use aec_params::{Fault, Limits, MAX_SAMPLES, Params};
use std::alloc::Global;

/// Returns the greatest limits.
pub(crate) fn limits() -> Limits
    ensures { result ≡ most }
{
    Limits::new(MAX_SAMPLES, MAX_CODED_BYTES).unwrap()
}

/// Returns the options as parameters.
pub(crate) fn params_of(options: &Options) -> Result<Params, Fault>
    ensures ok { IfOk result (λ params. params ≡ settings_of options.now) }
    ensures allowed { IfOk result (λ params. IsAllowed params) }
    ensures refuses { result_err result ≡ settings_fault (settings_of options.now) }
{
    Params::new(settings_of(options))
}

/// Writes the code of stored samples to a buffer if there is room for all of it. Returns how many
/// bytes it takes.
pub(crate) fn encode_with(
    alloc: Global,
    options: &Options,
    samples: &[u8],
    out: &mut [u8],
) -> Result<u64, Fault>
    ensures { FillsOne (IsCoding (settings_of options.now) samples.now) out.old out.new result }
{
    let params = params_of(options)?;
    encode_into(alloc, &params, limits(), samples, out)
}

/// Returns how many of `len` coded bytes are read first, if a count is given: all, or as many as
/// always suffice for a code of so many samples. Code no longer than the bits of its samples is
/// read whole: this test needs no division.
fn bytes_read_first(options: &Options, count: u64, len: usize) -> u64 {
    let bytes = len as u64;
    if bytes.saturating_mul(8) <= count.saturating_mul(u64::from(options.bits)) {
        return bytes;
    }
    bound_of(options, count)
}

/// Decodes the first `front` coded bytes as `count` samples, as `decode_into` does. Returns `None`
/// if that fails; the buffer is unchanged then.
fn decode_front(
    alloc: Global,
    params: &Params,
    count: u64,
    front: usize,
    bytes: &[u8],
    out: &mut [u8],
) -> Option<u64>
    requires within { front ≤ length bytes.now }
    requires short { length bytes.now ≤ 2 ^ 40 }
    ensures some { IfSome result (λ len. FillsOne (OrMemory (IsDecoded params.now most (Some count)
        (input_of bytes.now false))) out.old out.new (Ok len)) }
    ensures none { result ≡ None → out.new ≡ out.old }
{
    match decode_into(alloc, params, limits(), Some(count), &bytes[..front], out) {
        Ok(len) => Some(len),
        Err(_) => None,
    }
}

/// Writes the stored samples of coded bytes to a buffer if there is room for all of them. With a
/// count it first reads only `bound` bytes, which always suffice for a code of so many samples.
fn decode_within_bound(
    alloc: Global,
    params: &Params,
    count: Option<u64>,
    bound: u64,
    bytes: &[u8],
    out: &mut [u8],
) -> Result<u64, Fault>
    ensures { FillsOne (OrMemory (IsDecoded params.now most count (input_of bytes.now false)))
        out.old out.new result }
{
    let whole = bytes.len() as u64;
    if bound < whole
        && whole <= MAX_CODED_BYTES
        && let Some(count) = count
    {
        if let Some(len) = decode_front(alloc, params, count, bound as usize, bytes, out) {
            return Ok(len);
        }
    }
    decode_into(alloc, params, limits(), count, bytes, out)
}

/// Writes the stored samples of coded bytes to a buffer if there is room for all of them. Returns
/// how many bytes they take.
pub(crate) fn decode_with(
    alloc: Global,
    options: &Options,
    count: u64,
    bytes: &[u8],
    out: &mut [u8],
) -> Result<u64, Fault>
    ensures { FillsOne (IsDecoding (settings_of options.now) (count_of count) bytes.now) out.old
        out.new result }
{
    let params = params_of(options)?;
    let bound = bytes_read_first(options, count, bytes.len());
    decode_within_bound(alloc, &params, count_of(count), bound, bytes, out)
}

/// The samples that C asks for: `len` of them from place `first` on, of the first `count`, or of
/// all if `count` is 2^64 - 1.
#[derive(Clone, Copy)]
pub(crate) struct Asked {
    pub(crate) count: u64,
    pub(crate) first: u64,
    pub(crate) len: u64,
}

/// Decodes the first `front` coded bytes as `asked.count` samples, and cuts out a range, as
/// `range_into` does. Returns `None` if that fails; the buffer is unchanged then.
fn range_front(
    alloc: Global,
    params: &Params,
    asked: Asked,
    front: usize,
    bytes: &[u8],
    out: &mut [u8],
) -> Option<u64>
    requires within { front ≤ length bytes.now }
    requires short { length bytes.now ≤ 2 ^ 40 }
    ensures some { IfSome result (λ put. FillsOne (OrMemory (IsRanged params.now most
        (Some asked.count) asked.first asked.len (input_of bytes.now false))) out.old out.new
        (Ok put)) }
    ensures none { result ≡ None → out.new ≡ out.old }
{
    let Asked { count, first, len } = asked;
    let front = &bytes[..front];
    match range_into(alloc, params, limits(), Some(count), first, len, front, out) {
        Ok(put) => Some(put),
        Err(_) => None,
    }
}

/// Writes a range of the stored samples of coded bytes to a buffer if there is room for it. With a
/// count it first reads only `bound` bytes, which always suffice for a code of so many samples.
fn range_within_bound(
    alloc: Global,
    params: &Params,
    asked: Asked,
    bound: u64,
    bytes: &[u8],
    out: &mut [u8],
) -> Result<u64, Fault>
    ensures { FillsOne (OrMemory (IsRanged params.now most (count_of asked.count) asked.first
        asked.len (input_of bytes.now false))) out.old out.new result }
{
    let whole = bytes.len() as u64;
    let count = count_of(asked.count);
    if count.is_some() && bound < whole && whole <= MAX_CODED_BYTES {
        if let Some(put) = range_front(alloc, params, asked, bound as usize, bytes, out) {
            return Ok(put);
        }
    }
    let Asked { first, len, .. } = asked;
    range_into(alloc, params, limits(), count, first, len, bytes, out)
}

/// Writes a range of the stored samples of coded bytes to a buffer if there is room for it. Returns
/// how many bytes it takes.
pub(crate) fn range_with(
    alloc: Global,
    options: &Options,
    asked: Asked,
    bytes: &[u8],
    out: &mut [u8],
) -> Result<u64, Fault>
    ensures { FillsOne (IsRanging (settings_of options.now) (count_of asked.count) asked.first
        asked.len bytes.now) out.old out.new result }
{
    let params = params_of(options)?;
    let bound = bytes_read_first(options, asked.count, bytes.len());
    range_within_bound(alloc, &params, asked, bound, bytes, out)
}
