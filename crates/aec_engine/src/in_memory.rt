//! Bytes in memory as a source, and their decoding.

ghost use Rattle.std.specs.Prelude.{◌≡◌, ◌⊎◌, Some, IfOk, IfErr};
ghost use Rattle.aec_params.specs.declared.fault.Fault.TheVariants.{Memory, Write as WriteFault};
ghost use Rattle.aec_engine.specs.InMemory.{IsStoredReadingOf, RefusesCoded};

use crate::engine::decode;
use aec_bits::{Source, WriteSink};
use aec_params::{Fault, Limits, Params};
use std::alloc::Global;
use std::io::Read;

/// Bytes in memory as a source, which never fails.
#[derive(Drop)]
pub(crate) struct SliceSource<'a> {
    rest: &'a [u8],
}

impl<'a> SliceSource<'a> {
    /// Returns a source of these bytes.
    pub(crate) fn new(bytes: &'a [u8]) -> SliceSource<'a>
        ensures { ⟦<SliceSource<'a> as Source>⟧.left result ≡ Some bytes.now }
    {
        SliceSource { rest: bytes }
    }
}

impl<'a> Source for SliceSource<'a> {
    ghost left = { λ s. Some s.rest.now };

    ghost failed = { λ _. 0 };

    fn take(&mut self, buf: &mut [u8]) -> Result<usize, Fault> {
        Ok(self.rest.read(buf).unwrap_or(0))
    }

    fn failures(&self) -> u64 {
        0
    }
}

/// Returns `Memory` for `Write`: a write to a vector fails only for lack of memory.
pub(crate) fn memory_for_write(fault: Fault) -> Fault
    ensures memory { fault ≡ WriteFault → result ≡ Memory }
    ensures other { (result ≡ fault) ⊎ (fault ≡ WriteFault) }
{
    match fault {
        Fault::Write => Fault::Memory,
        other => other,
    }
}

/// Returns the stored bytes of the samples that coded bytes decode to: the first `count`, or all
/// without a count.
pub fn decode_bytes(
    alloc: Global,
    params: &Params,
    limits: Limits,
    count: Option<u64>,
    coded: &[u8],
) -> Result<Vec<u8>, Fault>
    ensures ok { IfOk result (λ bytes. IsStoredReadingOf params.now limits count coded.now
        bytes.items) }
    ensures refuses { IfErr result
        (λ fault. (fault ≡ Memory) ⊎ RefusesCoded params.now limits count coded.now fault) }
{
    let mut source = SliceSource::new(coded);
    let mut sink = WriteSink::new(Vec::new(alloc));
    match decode(alloc, params, limits, count, &mut source, &mut sink) {
        Ok(()) => Ok(sink.into_inner()),
        Err(fault) => Err(memory_for_write(fault)),
    }
}
