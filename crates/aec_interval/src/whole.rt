//! Codes a whole list of samples.

ghost use Rattle.std.specs.Prelude.{◌≡◌, ◌≤◌, Bool, false, List, Some, length, IfOk, IfErr, MatchOption};
ghost use Rattle.std.specs.List.{AllByRecursion, flat_map};
ghost use Rattle.std.specs.Result.{result_err};
ghost use Rattle.aec_params.specs.declared.fault.Fault.TheVariants.{SampleRange, Memory};
ghost use Rattle.aec_params.specs.Params.{is_held, IsAllowed, IsHeld};
ghost use Rattle.aec_params.specs.Blocks.{intervals_of};
ghost use Rattle.aec_params.specs.Streams.{stream_of};
ghost use Rattle.aec_bits.specs.Refusals.{first_unheld};
ghost use Rattle.aec_interval.specs.Laws.{ReadsEach};

use crate::interval::write_intervals;
use aec_bits::BitBuf;
use aec_params::{Fault, Params};
use std::alloc::Global;

/// Returns the index of the first number that is no sample of the parameters.
fn unheld_index(params: &Params, samples: &[i64]) -> Option<u64>
    ensures { result ≡ first_unheld (is_held params.now) 0 samples.now }
{
    for (index, x) in samples.iter().enumerate() {
        if !params.holds(*x) {
            return Some(index as u64);
        }
    }
    None
}

/// Returns the code of samples, interval by interval. Fails with `Memory` if an allocation fails.
fn code_intervals(alloc: Global, params: &Params, samples: &[i64]) -> Result<BitBuf, Fault>
    requires { AllByRecursion (IsHeld params.now) samples.now }
    ensures ok { IfOk result (λ b. b.list ≡ stream_of params.now samples.now) }
    ensures allowed { IsAllowed params.now }
    ensures fault { IfErr result (λ e. e ≡ Memory) }
{
    let mut out = BitBuf::new(alloc);
    write_intervals(alloc, params, samples, &mut out)?;
    Ok(out)
}

/// Returns the code of samples, without the zeros that fill its last byte. Fails with `SampleRange`
/// and the index of the first number that is no sample of the parameters, checked before anything
/// is allocated; else with `Memory` if an allocation fails.
///
/// Without padding no coded data sets for the same blocks are shorter: take for each interval any
/// bits that by the definitions decode to its blocks, including the filler of the last block, by
/// any options and any runs. Together these bits are never fewer than ours.
pub fn encode_all(alloc: Global, params: &Params, samples: &[i64]) -> Result<BitBuf, Fault>
    ensures ok { IfOk result (λ b. b.list ≡ stream_of params.now samples.now) }
    ensures shortest { params.now.pad ≡ false → IfOk result (λ b. (codes : List (List Bool))
        → ReadsEach params.now codes (intervals_of params.now samples.now)
        → length b.list ≤ length (flat_map (λ code. code) codes)) }
    ensures refuses { MatchOption (first_unheld (is_held params.now) 0 samples.now)
        (IfErr result (λ e. e ≡ Memory)) (λ index. result_err result ≡ Some (SampleRange index)) }
{
    match unheld_index(params, samples) {
        Some(index) => Err(Fault::SampleRange { index }),
        None => code_intervals(alloc, params, samples),
    }
}
