//! Codes stored samples in memory, without a source and a sink.

ghost use Rattle.std.specs.Prelude.{◌≡◌, ◌⊎◌, ◌+◌, ◌*◌, ◌≤◌, [], Some, Ok, false, length, IfOk, IfErr};
ghost use Rattle.aec_params.specs.declared.fault.Fault.TheVariants.{Memory};
ghost use Rattle.aec_params.specs.Codewords.{bytes_of};
ghost use Rattle.aec_engine.specs.Transfers.{input_of, answer_by};
ghost use Rattle.aec_engine.specs.Output.{IsEncoded};
ghost use Rattle.aec_engine.specs.InMemory.{IsCodeOf, bytes_refusal};
ghost use Rattle.aec_engine.specs.Buffers.{left_of, FillsOne, OrMemory};

use aec_bits::BitBuf;
use aec_interval::StreamCoder;
use aec_params::{Fault, Limits, Params};
use std::alloc::Global;

/// The code of at most this many bytes of samples gets its room in advance. Longer code grows while
/// it is made.
const MAX_SHORT_INPUT_BYTES: usize = 65536;

/// Returns how many bits to reserve for the code of `len` bytes of samples: nine for each byte, of
/// which it counts at most `MAX_SHORT_INPUT_BYTES`, and 64. Code seldom takes more.
fn first_bits(len: usize) -> u64
    ensures short { result ≤ 9 * len + 64 }
    ensures long { result ≤ 9 * 65536 + 64 }
{
    9 * len.min(MAX_SHORT_INPUT_BYTES) as u64 + 64
}

/// Returns an empty list with room for `first_bits(len)` bits.
fn roomy_bits(alloc: Global, len: usize) -> Result<BitBuf, Fault>
    ensures empty { IfOk result (λ bits. bits.list ≡ []) }
    ensures fault { IfErr result (λ e. e ≡ Memory) }
{
    let mut bits = BitBuf::new(alloc);
    bits.reserve(first_bits(len))?;
    Ok(bits)
}

/// Returns the code of stored samples.
fn coded_bits(alloc: Global, params: &Params, limits: Limits, bytes: &[u8]) -> Result<BitBuf, Fault>
    ensures { OrMemory (IsEncoded params.now limits (input_of bytes.now false))
        (answer_by (λ bits. bytes_of bits.list) result) }
{
    params.known_allowed();
    let mut coder = StreamCoder::new(alloc, *params, limits.samples());
    let mut bits = roomy_bits(alloc, bytes.len())?;
    coder.feed(bytes, &mut bits)?;
    coder.finish(&mut bits)?;
    Ok(bits)
}

/// Returns the bytes that bits fill.
fn bytes_in(alloc: Global, bits: &BitBuf) -> Result<Vec<u8>, Fault>
    ensures ok { IfOk result (λ bytes. bytes.items ≡ bytes_of bits.now.list) }
    ensures fault { IfErr result (λ e. e ≡ Memory) }
{
    let mut bytes = vec![in alloc; 0u8; bits.byte_len() as usize]?;
    bits.put_bytes(&mut bytes);
    Ok(bytes)
}

/// Returns the bytes of the code of stored samples. Fails at the first refused sample, with
/// `TooManySamples` before `SampleRange`, or at any time with `Memory`. `limits.bytes` is not used.
pub fn encode_bytes(
    alloc: Global,
    params: &Params,
    limits: Limits,
    bytes: &[u8],
) -> Result<Vec<u8>, Fault>
    ensures ok { IfOk result (λ coded. IsCodeOf params.now limits.samples bytes.now coded.items) }
    ensures refuses { IfErr result
        (λ fault. (fault ≡ Memory)
        ⊎ (bytes_refusal params.now limits.samples bytes.now ≡ Some fault)) }
{
    let bits = coded_bits(alloc, params, limits, bytes)?;
    bytes_in(alloc, &bits)
}

/// Writes the bytes that bits fill to the front of a buffer, if there is room for all of them.
/// Returns how many bytes they take.
fn put_front(bits: &BitBuf, out: &mut [u8]) -> u64
    ensures len { result ≡ length (bytes_of bits.now.list) }
    ensures left { out.new ≡ left_of (Ok (bytes_of bits.now.list)) out.old }
{
    let len = bits.byte_len();
    if len <= out.len() as u64 {
        bits.put_bytes(&mut out[..len as usize]);
    }
    len
}

/// Writes the bytes of the code of stored samples to the front of a buffer if there is room for all
/// of them, and changes no other byte of it. Returns how many bytes they take. Fails as
/// `encode_bytes` does; the buffer is unchanged then.
///
/// Allocates room for the code, and for 4,096 samples or those of a longer interval.
pub fn encode_into(
    alloc: Global,
    params: &Params,
    limits: Limits,
    bytes: &[u8],
    out: &mut [u8],
) -> Result<u64, Fault>
    ensures { FillsOne (OrMemory (IsEncoded params.now limits (input_of bytes.now false)))
        out.old out.new result }
{
    let code = coded_bits(alloc, params, limits, bytes)?;
    Ok(put_front(&code, out))
}
