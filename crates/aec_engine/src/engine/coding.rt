//! Codes stored samples.

ghost use Rattle.std.specs.Prelude.{ℕ, List, Bool};
ghost use Rattle.aec_params.specs.Codewords.{bytes_of};
ghost use Rattle.aec_engine.specs.Transfers.{Taking, taking_of, Putting, putting_of, Leaves};
ghost use Rattle.aec_engine.specs.Output.{IsEncoded, are_refused};
ghost use Rattle.aec_engine.specs.Delivering.{Delivers};

use crate::engine::intake::PIECE_BYTES;
use aec_bits::{BitBuf, Sink, Source};
use aec_interval::StreamCoder;
use aec_params::{Fault, Limits, Params};
use std::alloc::Global;

/// Calls `begin`, and writes the bytes that all bits fill. Fails with `Write` if the sink fails.
fn deliver_bits<W: Sink>(bits: &BitBuf, sink: &mut W) -> Result<(), Fault>
    ensures { let put : Putting = putting_of W.taken W.begun W.mark W.failed sink.old sink.new in
        Delivers (bytes_of bits.now.list) put result }
{
    sink.begin()?;
    bits.write_to(sink)
}

/// Codes the stored samples of a source, each piece before it takes the next, to the source's end,
/// its failure or the first refused sample, and writes the bytes of their code. Returns the first
/// refusal that it meets: at each sample `TooManySamples`, then `SampleRange`; `Read` if the source
/// fails; `Memory`. On these refusals nothing is written and `begin` isn't called. After `begin` it
/// fails only with `Write`, with a prefix of the bytes written. `limits.bytes` is not used.
pub fn encode<R: Source, W: Sink>(
    alloc: Global,
    params: &Params,
    limits: Limits,
    source: &mut R,
    sink: &mut W,
) -> Result<(), Fault>
    ensures { let took : Taking = taking_of R.left R.failed source.old source.new in
        let put : Putting = putting_of W.taken W.begun W.mark W.failed sink.old sink.new in
        let enough : List ℕ → Bool = are_refused params.now limits.samples in
        Leaves (IsEncoded params.now limits) took enough put result }
{
    params.known_allowed();
    let mut coder = StreamCoder::new(alloc, *params, limits.samples());
    let mut bits = BitBuf::new(alloc);
    let mut piece = [0u8; PIECE_BYTES];
    loop {
        let count = source.take(&mut piece)?;
        if count == 0 {
            break;
        }
        coder.feed(&piece[..count], &mut bits)?;
    }
    coder.finish(&mut bits)?;
    deliver_bits(&bits, sink)
}
