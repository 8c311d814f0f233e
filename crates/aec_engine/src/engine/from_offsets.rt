//! Decodes coded bytes in memory from a bit on, and finds the bits where their intervals begin: the
//! results go into a buffer.

ghost use Rattle.std.specs.Prelude.{◌≡◌, ◌*◌, ◌≤◌, ◌%◌, ◌⊎◌, true, Ok, Err, length, drop, IfOk, IfErr, OnErr};
ghost use Rattle.aec_params.specs.declared.fault.Fault.TheVariants.{Memory};
ghost use Rattle.aec_params.specs.Codewords.{bits_of_bytes};
ghost use Rattle.aec_engine.specs.Buffers.{FillsOne, OrMemory};
ghost use Rattle.aec_engine.specs.Offsets.{IsDecodedAt, AreFound};

use crate::engine::bit_intake::bits_of;
use crate::engine::into_buffers::{decode_bits_into, put_first};
use crate::engine::terms::Terms;
use aec_bits::BitBuf;
use aec_interval::{decode_at, interval_offsets};
use aec_params::{Fault, Limits, Params};
use std::alloc::Global;

/// Returns the bits of coded bytes from a bit on. Copies no byte before that of the bit.
fn bits_behind(alloc: Global, coded: &[u8], bit: u64) -> Result<BitBuf, Fault>
    requires { bit ≤ 8 * length coded.now }
    ensures { IfOk result (λ bits. bits.list ≡ drop bit (bits_of_bytes coded.now)) }
{
    let mut bits = BitBuf::from_bytes(alloc, &coded[(bit / 8) as usize..])?;
    bits.splice(0, bit % 8, &BitBuf::new(alloc))?;
    Ok(bits)
}

/// Decodes the bits of coded bytes from a bit on, as `decode_into` decodes all. If it fails, the
/// buffer is unchanged, and the bit of the fault is counted from there on.
fn decode_from_bit(
    alloc: Global,
    terms: &Terms,
    bit: u64,
    coded: &[u8],
    out: &mut [u8],
) -> Result<u64, Fault>
    requires within { bit ≤ 8 * length coded.now }
    requires short { length coded.now ≤ terms.now.limits.bytes }
    ensures ok { IfOk result (λ len. FillsOne (OrMemory
        (IsDecodedAt terms.now.params terms.now.limits bit terms.now.count coded.now))
        out.old out.new (Ok len)) }
    ensures err { OnErr result (out.new ≡ out.old) }
{
    let bits = bits_behind(alloc, coded, bit)?;
    decode_bits_into(alloc, terms, &bits, out)
}

/// Does what `decode_at_into` does, by a list of all samples.
fn decode_list_at(
    alloc: Global,
    terms: &Terms,
    bit: u64,
    coded: &[u8],
    out: &mut [u8],
) -> Result<u64, Fault>
    requires within { bit ≤ 8 * length coded.now }
    requires whole_bytes { terms.now.params.pad ≡ true → bit % 8 ≡ 0 }
    ensures { FillsOne (OrMemory (IsDecodedAt terms.now.params terms.now.limits bit terms.now.count
        coded.now)) out.old out.new result }
{
    let params = &terms.params;
    params.known_allowed();
    let bits = bits_of(alloc, coded, terms.limits.bytes())?;
    let limit = terms.limits.samples();
    let samples = decode_at(alloc, params, &bits, bit, terms.count, limit)?;
    Ok(put_first(params, &samples, out))
}

/// Decodes coded bytes from a bit on, and writes the stored bytes of the samples to the front of a
/// buffer if there is room for all of them. Changes no other byte of the buffer. Returns how many
/// bytes the samples take. If an interval begins at the bit, these are its samples and those of the
/// intervals after it; `offsets_into` finds such bits.
///
/// Fails as `decode_bytes` does of the bits from there on; the bit of a fault is counted from the
/// first of all bits. The buffer is unchanged then.
///
/// Allocates room for the coded bytes, and at most 24 bytes for each sample, counted in whole
/// blocks. With a count it first decodes as `decode_into` does, without a list of all samples, and
/// copies only the bytes from that of the bit on. If that fails, the samples are read again, for
/// the fault.
pub fn decode_at_into(
    alloc: Global,
    params: &Params,
    limits: Limits,
    bit: u64,
    count: Option<u64>,
    coded: &[u8],
    out: &mut [u8],
) -> Result<u64, Fault>
    requires within { bit ≤ 8 * length coded.now }
    requires whole_bytes { params.now.pad ≡ true → bit % 8 ≡ 0 }
    ensures { FillsOne (OrMemory (IsDecodedAt params.now limits bit count coded.now)) out.old
        out.new result }
{
    let terms = Terms {
        params: *params,
        limits,
        count,
    };
    if count.is_some() && coded.len() as u64 <= limits.bytes() {
        match decode_from_bit(alloc, &terms, bit, coded, out) {
            Ok(len) => return Ok(len),
            Err(Fault::Memory) => return Err(Fault::Memory),
            Err(_) => {}
        }
    }
    decode_list_at(alloc, &terms, bit, coded, out)
}

/// Writes offsets to the front of a buffer if there is room for all of them. Returns how many they
/// are.
fn put_offsets(offsets: &[u64], out: &mut [u64]) -> u64
    ensures { FillsOne (λ answer. answer ≡ Ok offsets.now) out.old out.new (Ok result) }
{
    if offsets.len() <= out.len() {
        out[..offsets.len()].copy_from_slice(offsets);
    }
    offsets.len() as u64
}

/// Writes the offset of each interval of the samples that coded bytes decode to (the bit where the
/// interval begins) to the front of a buffer if there is room for all of them. Changes no other
/// item of the buffer. Returns how many intervals there are.
///
/// Fails as `decode_bytes` does; the buffer is unchanged then.
///
/// Allocates room for the coded bytes, and at most 24 bytes for each interval.
pub fn offsets_into(
    alloc: Global,
    params: &Params,
    limits: Limits,
    count: Option<u64>,
    coded: &[u8],
    out: &mut [u64],
) -> Result<u64, Fault>
    ensures { FillsOne (OrMemory (AreFound params.now limits count coded.now)) out.old out.new
        result }
{
    let bits = bits_of(alloc, coded, limits.bytes())?;
    let offsets = interval_offsets(alloc, params, &bits, count, limits.samples())?;
    Ok(put_offsets(&offsets, out))
}
