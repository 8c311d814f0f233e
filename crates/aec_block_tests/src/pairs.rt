//! Pairs of the second extension spelled by hand, and the members that are read from them.

use crate::reading::{expect_block, expect_fault};
use aec_bits::BitBuf;
use aec_params::{Fault, Params, Settings};
use std::alloc::Global;
use std::test::Fail;

/// Returns a second extension: a pair with this number, then three pairs of zeros.
fn one_pair(alloc: Global, reference: Option<u32>, number: u64) -> Result<BitBuf, Fault> {
    let mut bits = BitBuf::new(alloc);
    bits.push_bits(1, 4)?;
    if reference.is_some() {
        bits.push_bits(0, 8)?;
    }
    bits.push_fs(number)?;
    bits.push_bits(0b111, 3)?;
    Ok(bits)
}

#[test]
fn judges_the_members_of_pairs(rt: HostRuntime) -> Result<(), Fail> {
    let params = Params::new(Settings::USUAL)?;
    // The pair (0, 255).
    let greatest = one_pair(rt.alloc(), None, 32_895)?;
    expect_block(
        &rt,
        rt.alloc(),
        &params,
        &greatest,
        None,
        &[0, 255, 0, 0, 0, 0, 0, 0],
        32_903,
    );
    // The pair (256, 0).
    let large = one_pair(rt.alloc(), None, 32_896)?;
    expect_fault(
        &rt,
        rt.alloc(),
        &params,
        &large,
        0,
        false,
        Fault::ValueTooLarge { bit: 0 },
    );
    // In a reference block, the first pairs (5, 0), (256, 0) and (0, 256).
    let ignored = one_pair(rt.alloc(), Some(0), 15)?;
    expect_block(&rt, rt.alloc(), &params, &ignored, Some(0), &[0; 8], 31);
    let large_ignored = one_pair(rt.alloc(), Some(0), 32_896)?;
    expect_block(
        &rt,
        rt.alloc(),
        &params,
        &large_ignored,
        Some(0),
        &[0; 8],
        32_912,
    );
    let large_second = one_pair(rt.alloc(), Some(0), 33_152)?;
    expect_fault(
        &rt,
        rt.alloc(),
        &params,
        &large_second,
        0,
        true,
        Fault::ValueTooLarge { bit: 0 },
    );
    Ok(())
}

#[test]
fn reads_pairs_with_numbers_near_64(rt: HostRuntime) -> Result<(), Fail> {
    let params = Params::new(Settings::USUAL)?;
    for (number, first, second) in [(63, 2, 8), (64, 1, 9), (66, 11, 0)] {
        let pairs = one_pair(rt.alloc(), None, number)?;
        expect_block(
            &rt,
            rt.alloc(),
            &params,
            &pairs,
            None,
            &[first, second, 0, 0, 0, 0, 0, 0],
            8 + number,
        );
    }
    Ok(())
}

#[test]
fn judges_short_pairs_of_three_bits(rt: HostRuntime) -> Result<(), Fail> {
    let params = Params::new(Settings {
        bits: 3,
        ..Settings::USUAL
    })?;
    // The pair (0, 7).
    let greatest = one_pair(rt.alloc(), None, 35)?;
    expect_block(
        &rt,
        rt.alloc(),
        &params,
        &greatest,
        None,
        &[0, 7, 0, 0, 0, 0, 0, 0],
        43,
    );
    // The pair (8, 0).
    let large = one_pair(rt.alloc(), None, 36)?;
    expect_fault(
        &rt,
        rt.alloc(),
        &params,
        &large,
        0,
        false,
        Fault::ValueTooLarge { bit: 0 },
    );
    Ok(())
}
