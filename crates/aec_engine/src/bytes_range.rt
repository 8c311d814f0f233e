//! A range of coded bytes in memory.

ghost use Rattle.std.specs.Prelude.{◌≡◌, ◌⊎◌, false, Ok, Err, IfOk, IfErr};
ghost use Rattle.aec_params.specs.declared.fault.Fault.TheVariants.{Memory};
ghost use Rattle.aec_engine.specs.Transfers.{input_of};
ghost use Rattle.aec_engine.specs.Output.{IsRanged};

use crate::engine::range;
use crate::in_memory::{SliceSource, memory_for_write};
use aec_bits::WriteSink;
use aec_params::{Fault, Limits, Params};
use std::alloc::Global;

/// Returns the stored bytes of `len` of the samples that coded bytes decode to, from place `first`
/// on. Fails as `decode_bytes` does, and then with `OutOfRange`.
pub fn range_bytes(
    alloc: Global,
    params: &Params,
    limits: Limits,
    count: Option<u64>,
    first: u64,
    len: u64,
    coded: &[u8],
) -> Result<Vec<u8>, Fault>
    ensures ok { IfOk result (λ bytes. IsRanged params.now limits count first len
        (input_of coded.now false) (Ok bytes.items)) }
    ensures refuses { IfErr result (λ fault. (fault ≡ Memory)
        ⊎ IsRanged params.now limits count first len (input_of coded.now false) (Err fault)) }
{
    let mut source = SliceSource::new(coded);
    let mut sink = WriteSink::new(Vec::new(alloc));
    match range(
        alloc,
        params,
        limits,
        count,
        first,
        len,
        &mut source,
        &mut sink,
    ) {
        Ok(()) => Ok(sink.into_inner()),
        Err(fault) => Err(memory_for_write(fault)),
    }
}
