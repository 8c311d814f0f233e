//! Reads the bits of a source, or of bytes in memory, to their end or to a limit.

ghost use Rattle.std.specs.Prelude.{◌≡◌, ◌<◌, ◌≤◌, ◌⊎◌, [], Some, Err, IfErr, IfOk, length, true};
ghost use Rattle.aec_params.specs.declared.fault.Fault.TheVariants.{Memory, StreamTooLong};
ghost use Rattle.aec_params.specs.Codewords.{bits_of_bytes};
ghost use Rattle.aec_engine.specs.ReadingTwice.{GaveBits, GaveWhole};
ghost use Rattle.aec_engine.specs.Transfers.{RefusesIntake, Taking, taking_of};

use crate::engine::intake::PIECE_BYTES;
use aec_bits::{BitBuf, Source};
use aec_params::Fault;
use std::alloc::Global;

/// Returns the bits of a source's bytes up to its end, up to its failure, or past `limit` bytes,
/// and whether it failed. Fails only with `Memory`.
fn read_bits_past<R: Source>(
    alloc: Global,
    source: &mut R,
    limit: u64,
) -> Result<(BitBuf, bool), Fault>
    ensures ok { let took : Taking = taking_of R.left R.failed source.old source.new in
        IfOk result (λ given. GaveBits took limit given.0.list given.1) }
    ensures fault { IfErr result (λ e. e ≡ Memory) }
{
    let mut bits = BitBuf::new(alloc);
    let mut piece = [0u8; PIECE_BYTES];
    while bits.byte_len() <= limit {
        match source.take(&mut piece) {
            Ok(0) => return Ok((bits, false)),
            Ok(count) => bits.append_bytes(&piece[..count])?,
            Err(_) => return Ok((bits, true)),
        }
    }
    Ok((bits, false))
}

/// Returns the bits of a source's bytes up to its end. Fails as `read_whole` does.
pub(crate) fn read_bits<R: Source>(
    alloc: Global,
    source: &mut R,
    limit: u64,
) -> Result<BitBuf, Fault>
    ensures ok { IfOk result (λ bits. GaveWhole (R.left source.old) (R.left source.new)
        (R.failed source.new) limit bits.list) }
    ensures refuses { IfErr result
        (λ fault. RefusesIntake (R.left source.old) (R.left source.new) (R.failed source.new) limit
        fault) }
{
    let (bits, failed) = read_bits_past(alloc, source, limit)?;
    if failed {
        return Err(Fault::Read);
    }
    if bits.byte_len() > limit {
        return Err(Fault::StreamTooLong { limit });
    }
    Ok(bits)
}

/// Returns the bits of coded bytes. If there are more than `limit` bytes, fails with
/// `StreamTooLong` before it allocates.
pub(crate) fn bits_of(alloc: Global, coded: &[u8], limit: u64) -> Result<BitBuf, Fault>
    ensures ok { IfOk result (λ bits. GaveWhole (Some coded.now) (Some []) 0 limit bits.list) }
    ensures refuses { IfErr result (RefusesIntake (Some coded.now) (Some []) 0 limit) }
    ensures long { limit < length coded.now → result ≡ Err (StreamTooLong limit) }
    ensures spelled { IfOk result (λ bits. bits.list ≡ bits_of_bytes coded.now) }
    ensures short { IfOk result (λ _. length coded.now ≤ limit) }
    ensures fault { IfErr result (λ fault. (fault ≡ Memory)
        ⊎ ((limit < length coded.now) × (fault ≡ StreamTooLong limit))) }
{
    if coded.len() as u64 > limit {
        return Err(Fault::StreamTooLong { limit });
    }
    BitBuf::from_bytes(alloc, coded)
}
