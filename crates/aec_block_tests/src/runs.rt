//! Runs of zero blocks: worked values, and a comparison of their lengths with those of their parts.

ghost use Rattle.std.specs.Prelude.{◌-◌, ◌≤◌, if◌then◌else◌};
ghost use Rattle.aec_params.specs.Runs.{segment_len};
ghost use Rattle.aec_block.specs.Choices.{FitsReference};

use crate::asserts::{holds, holds_at, same};
use crate::choices::fits_reference;
use crate::shared::expect_bits;
use aec_bits::BitBuf;
use aec_block::write_run;
use aec_params::{Params, Settings};
use std::alloc::Global;
use std::process::Abort;
use std::test::Fail;

#[test]
fn writes_runs(rt: HostRuntime) -> Result<(), Fail> {
    let params = Params::new(Settings::USUAL)?;
    let mut out = BitBuf::new(rt.alloc());
    write_run(&params, Some(0), 1, true, &mut out)?;
    expect_bits(&rt, &out, 13, &[0x00, 0x08]);
    let mut out = BitBuf::new(rt.alloc());
    write_run(&params, None, 4, false, &mut out)?;
    expect_bits(&rt, &out, 8, &[0x01]);
    let mut out = BitBuf::new(rt.alloc());
    write_run(&params, None, 5, false, &mut out)?;
    expect_bits(&rt, &out, 10, &[0x00, 0x40]);
    let mut out = BitBuf::new(rt.alloc());
    write_run(&params, None, 64, true, &mut out)?;
    expect_bits(&rt, &out, 9, &[0x00, 0x80]);
    Ok(())
}

#[test]
fn writes_the_zero_block_of_each_code_set(rt: HostRuntime) -> Result<(), Fail> {
    // The identifier is all zeros, one bit more than L in FORMAT.md. A run of one block is then a
    // single 1 bit.
    for (bits, restricted, len, byte) in [
        (1, true, 3, 0x20),
        (3, true, 4, 0x10),
        (8, false, 5, 0x08),
        (16, false, 6, 0x04),
        (32, false, 7, 0x02),
    ] {
        let params = Params::new(Settings {
            bits,
            restricted,
            ..Settings::USUAL
        })?;
        let mut out = BitBuf::new(rt.alloc());
        write_run(&params, None, 1, true, &mut out)?;
        expect_bits(&rt, &out, len, &[byte]);
    }
    Ok(())
}

/// Returns the number of bits of a run's coded data set.
fn run_len(
    alloc: Global,
    params: &Params,
    reference: Option<u32>,
    blocks: u32,
    to_end: bool,
) -> Result<u64, Fail>
    requires reference { FitsReference params.now reference }
    requires least { 1 ≤ blocks }
    requires most { blocks ≤ (if to_end then segment_len else segment_len - 1) }
{
    let mut out = BitBuf::new(alloc);
    write_run(params, reference, blocks, to_end, &mut out)?;
    Ok(out.len())
}

/// Checks that no run has more bits than two runs that decode to the same zero blocks.
fn expect_no_shorter_splits(
    rt: &impl Abort,
    alloc: Global,
    params: &Params,
    reference: Option<u32>,
    to_end: bool,
) -> Result<(), Fail>
    requires { FitsReference params.now reference }
{
    for front in 1..64 {
        for rest in 1..64 {
            let most = if to_end { 64 } else { 63 };
            if front + rest <= most {
                let whole = run_len(alloc, params, reference, front + rest, to_end)?;
                let first = run_len(alloc, params, reference, front, false)?;
                let second = run_len(alloc, params, None, rest, to_end)?;
                holds_at(rt, whole <= first.wrapping_add(second), &(&front, &rest));
            }
        }
    }
    Ok(())
}

#[test]
fn no_run_is_longer_than_its_parts(rt: HostRuntime) -> Result<(), Fail> {
    for (bits, restricted, id_len) in [
        (2, true, 1),
        (4, true, 2),
        (8, false, 3),
        (16, false, 4),
        (32, false, 5),
    ] {
        let params = Params::new(Settings {
            bits,
            restricted,
            ..Settings::USUAL
        })?;
        same(&rt, params.id_len(), id_len);
        for to_end in [false, true] {
            expect_no_shorter_splits(&rt, rt.alloc(), &params, None, to_end)?;
            holds(&rt, fits_reference(&params, Some(1)));
            expect_no_shorter_splits(&rt, rt.alloc(), &params, Some(1), to_end)?;
        }
    }
    Ok(())
}
