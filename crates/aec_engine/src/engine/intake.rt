//! Reads a source to its end, or to a limit.

ghost use Rattle.std.specs.Prelude.{◌≡◌, ◌≤◌, IfErr, IfOk, length, true};
ghost use Rattle.aec_params.specs.declared.fault.Fault.TheVariants.{Memory};
ghost use Rattle.aec_engine.specs.Transfers.{are_past, Gave, input_of, IsTakenWhole, RefusesIntake, Taking, taking_of};

use aec_bits::Source;
use aec_params::Fault;
use std::alloc::Global;

/// The most bytes that are taken from a source at a time: few enough for the stack.
pub(crate) const PIECE_BYTES: usize = 8192;

/// Returns the bytes of a source up to its end, up to its failure, or past `limit` bytes, and
/// whether it failed. Fails only with `Memory`.
fn read_past<R: Source>(alloc: Global, source: &mut R, limit: u64) -> Result<(Vec<u8>, bool), Fault>
    ensures ok { let took : Taking = taking_of R.left R.failed source.old source.new in
        IfOk result (λ given. Gave took (are_past limit) (input_of given.0.items given.1)) }
    ensures within { IfOk result (λ given. given.1 ≡ true → length given.0.items ≤ limit) }
    ensures fault { IfErr result (λ e. e ≡ Memory) }
{
    let mut bytes = Vec::new(alloc);
    let mut piece = [0u8; PIECE_BYTES];
    while bytes.len() as u64 <= limit {
        match source.take(&mut piece) {
            Ok(0) => return Ok((bytes, false)),
            Ok(count) => bytes.extend_from_slice(&piece[..count])?,
            Err(_) => return Ok((bytes, true)),
        }
    }
    Ok((bytes, false))
}

/// Returns the bytes of a source up to its end. Fails with `StreamTooLong` if there are more than
/// `limit`, with `Read` if the source fails before that, or with `Memory`.
pub(crate) fn read_whole<R: Source>(
    alloc: Global,
    source: &mut R,
    limit: u64,
) -> Result<Vec<u8>, Fault>
    ensures ok { IfOk result (λ bytes. IsTakenWhole (R.left source.old) (R.left source.new)
        (R.failed source.new) limit bytes.items) }
    ensures refuses { IfErr result
        (λ fault. RefusesIntake (R.left source.old) (R.left source.new) (R.failed source.new) limit
        fault) }
{
    let (bytes, failed) = read_past(alloc, source, limit)?;
    if failed {
        return Err(Fault::Read);
    }
    if bytes.len() as u64 > limit {
        return Err(Fault::StreamTooLong { limit });
    }
    Ok(bytes)
}
