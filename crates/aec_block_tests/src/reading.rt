//! Coded data sets spelled by hand, and what is read from them.

use crate::asserts::{fails, holds, same};
use aec_bits::{BitBuf, BitReader};
use aec_block::{Cds, RunLen, read_cds};
use aec_params::{Fault, Params, Settings};
use std::alloc::Global;
use std::process::Abort;
use std::test::Fail;

/// Checks that the bits begin with a block of this reference sample, if any, and these values, up
/// to bit `end`.
pub(crate) fn expect_block(
    rt: &impl Abort,
    alloc: Global,
    params: &Params,
    bits: &BitBuf,
    reference: Option<u32>,
    values: &[u32],
    end: u64,
) {
    let mut reader = BitReader::new(bits);
    match read_cds(alloc, params, &mut reader, reference.is_some()) {
        Ok(Cds::Single(block)) => {
            same(rt, block.reference(), reference);
            same(rt, block.values(), values);
        }
        Ok(Cds::Zeros { .. }) => fails(rt, &"a run"),
        Err(fault) => fails(rt, &fault),
    }
    same(rt, reader.pos(), end);
}

/// Checks that the bits begin with a run of length `want`, up to bit `end`.
fn expect_run(
    rt: &impl Abort,
    alloc: Global,
    params: &Params,
    bits: &BitBuf,
    first: Option<u32>,
    want: RunLen,
    end: u64,
) {
    let mut reader = BitReader::new(bits);
    match read_cds(alloc, params, &mut reader, first.is_some()) {
        Ok(Cds::Zeros { reference, len }) => {
            same(rt, reference, first);
            same(rt, len, want);
        }
        Ok(Cds::Single(_)) => fails(rt, &"a block"),
        Err(fault) => fails(rt, &fault),
    }
    same(rt, reader.pos(), end);
}

/// Checks that reading at bit `start` fails with `want`, and the reader stays there.
pub(crate) fn expect_fault(
    rt: &impl Abort,
    alloc: Global,
    params: &Params,
    bits: &BitBuf,
    start: u64,
    is_ref: bool,
    want: Fault,
) {
    let mut reader = BitReader::new(bits);
    holds(rt, start <= bits.len());
    reader.seek(start);
    match read_cds(alloc, params, &mut reader, is_ref) {
        Ok(_) => fails(rt, &"no fault"),
        Err(fault) => same(rt, fault, want),
    }
    same(rt, reader.pos(), start);
}

#[test]
fn reads_reference_blocks(rt: HostRuntime) -> Result<(), Fail> {
    let params = Params::new(Settings::USUAL)?;
    let ramp = BitBuf::from_bytes(rt.alloc(), &[0x40, 0x15, 0x55, 0x80])?;
    expect_block(
        &rt,
        rt.alloc(),
        &params,
        &ramp,
        Some(0),
        &[0, 1, 2, 2, 2, 2, 2, 2],
        31,
    );
    // The first pair is (1, 0), and its 1 is ignored.
    let pairs = BitBuf::from_bytes(rt.alloc(), &[0x10, 0x07, 0x80])?;
    expect_block(&rt, rt.alloc(), &params, &pairs, Some(0), &[0; 8], 17);
    // One zero block.
    let zeros = BitBuf::from_bytes(rt.alloc(), &[0x00, 0x08])?;
    expect_run(
        &rt,
        rt.alloc(),
        &params,
        &zeros,
        Some(0),
        RunLen::Blocks(1),
        13,
    );
    Ok(())
}

#[test]
fn reads_the_greatest_values(rt: HostRuntime) -> Result<(), Fail> {
    let params = Params::new(Settings {
        bits: 32,
        signed: true,
        ..Settings::USUAL
    })?;
    let mut bytes = [0xFF; 33];
    bytes[0] = 0xFC;
    bytes[1] = 0;
    bytes[2] = 0;
    bytes[3] = 0;
    bytes[4] = 0x07;
    bytes[32] = 0xF8;
    let bits = BitBuf::from_bytes(rt.alloc(), &bytes)?;
    let mut values = [u32::MAX; 8];
    values[0] = 0;
    expect_block(
        &rt,
        rt.alloc(),
        &params,
        &bits,
        Some(0x8000_0000),
        &values,
        261,
    );
    Ok(())
}

#[test]
fn reads_the_lengths_of_runs(rt: HostRuntime) -> Result<(), Fail> {
    let params = Params::new(Settings::USUAL)?;
    let lengths = [
        (0, RunLen::Blocks(1)),
        (1, RunLen::Blocks(2)),
        (2, RunLen::Blocks(3)),
        (3, RunLen::Blocks(4)),
        (4, RunLen::Rest),
        (5, RunLen::Blocks(5)),
        (63, RunLen::Blocks(63)),
        (64, RunLen::Blocks(64)),
        (70, RunLen::Blocks(70)),
    ];
    for (number, len) in lengths {
        let mut bits = BitBuf::new(rt.alloc());
        bits.push_bits(0, 4)?;
        bits.push_fs(number)?;
        expect_run(&rt, rt.alloc(), &params, &bits, None, len, 5 + number);
    }
    Ok(())
}

#[test]
fn judges_values_behind_the_last_bit(rt: HostRuntime) -> Result<(), Fail> {
    let params = Params::new(Settings {
        bits: 1,
        preprocess: false,
        ..Settings::USUAL
    })?;
    // k = 5: eight values of 1; then a block whose first value is 2.
    let ones = BitBuf::from_bytes(rt.alloc(), &[0xDF, 0xE1, 0x08, 0x42, 0x10, 0x84, 0x20])?;
    expect_block(&rt, rt.alloc(), &params, &ones, None, &[1; 8], 51);
    let two = BitBuf::from_bytes(rt.alloc(), &[0xDF, 0xE2, 0x08, 0x42, 0x10, 0x84, 0x20])?;
    expect_fault(
        &rt,
        rt.alloc(),
        &params,
        &two,
        0,
        false,
        Fault::ValueTooLarge { bit: 0 },
    );
    // k = 0: the first value is 2.
    let whole = BitBuf::from_bytes(rt.alloc(), &[0x27, 0xF8])?;
    expect_fault(
        &rt,
        rt.alloc(),
        &params,
        &whole,
        0,
        false,
        Fault::ValueTooLarge { bit: 0 },
    );
    let cut = BitBuf::from_bytes(rt.alloc(), &[0x27])?;
    expect_fault(
        &rt,
        rt.alloc(),
        &params,
        &cut,
        0,
        false,
        Fault::Truncated { bit: 0 },
    );
    Ok(())
}

#[test]
fn refuses_each_cut(rt: HostRuntime) -> Result<(), Fail> {
    let params = Params::new(Settings::USUAL)?;
    for len in 3..34 {
        let mut bits = BitBuf::new(rt.alloc());
        bits.push_bits(0b101, 3)?;
        bits.push_bits(0x4015_5580, 32)?;
        holds(&rt, len <= bits.len());
        bits.truncate(len);
        expect_fault(
            &rt,
            rt.alloc(),
            &params,
            &bits,
            3,
            true,
            Fault::Truncated { bit: 3 },
        );
    }
    Ok(())
}

/// Bits per sample, whether the set of options is restricted, bits of an identifier, and how many
/// values k has.
const CODE_SETS: [(u32, bool, u32, u32); 5] = [
    (1, true, 1, 0),
    (3, true, 2, 2),
    (8, false, 3, 6),
    (16, false, 4, 14),
    (32, false, 5, 30),
];

fn unprocessed(bits: u32, restricted: bool) -> Result<Params, Fault> {
    Params::new(Settings {
        bits,
        preprocess: false,
        restricted,
        ..Settings::USUAL
    })
}

// Checks that a number fits `width` bits, and appends it.
fn push_number(rt: &impl Abort, bits: &mut BitBuf, value: u64, width: u32) -> Result<(), Fault> {
    holds(rt, width < 64);
    holds(rt, value < 1 << width);
    bits.push_bits(value, width)
}

// Checks the remainder code after the identifier of a zero block, which has `len + 1` bits.
fn knows_runs(rt: &impl Abort, alloc: Global, params: &Params, len: u32) -> Result<(), Fault> {
    let mut run = BitBuf::new(alloc);
    push_number(rt, &mut run, 0, len.saturating_add(1))?;
    run.push_fs(4)?;
    let end = u64::from(len) + 6;
    expect_run(rt, alloc, params, &run, None, RunLen::Rest, end);
    Ok(())
}

// Checks four pairs of ones by the second extension.
fn knows_pairs(rt: &impl Abort, alloc: Global, params: &Params, len: u32) -> Result<(), Fault> {
    let mut pairs = BitBuf::new(alloc);
    push_number(rt, &mut pairs, 1, len.saturating_add(1))?;
    for _ in 0..4 {
        pairs.push_fs(4)?;
    }
    let end = u64::from(len) + 21;
    expect_block(rt, alloc, params, &pairs, None, &[1; 8], end);
    Ok(())
}

// Checks the greatest values of `n` bits by no compression.
fn knows_uncoded(
    rt: &impl Abort,
    alloc: Global,
    params: &Params,
    len: u32,
    n: u32,
) -> Result<(), Fault> {
    holds(rt, len < 64 && 1 <= n && n <= 32);
    let greatest = u32::MAX >> (32 - n);
    let mut plain = BitBuf::new(alloc);
    push_number(rt, &mut plain, (1 << len) - 1, len)?;
    for _ in 0..8 {
        push_number(rt, &mut plain, u64::from(greatest), n)?;
    }
    let end = u64::from(len + 8 * n);
    expect_block(rt, alloc, params, &plain, None, &[greatest; 8], end);
    Ok(())
}

#[test]
fn knows_each_identifier(rt: HostRuntime) -> Result<(), Fail> {
    for (n, restricted, len, _) in CODE_SETS {
        let params = unprocessed(n, restricted)?;
        knows_runs(&rt, rt.alloc(), &params, len)?;
        knows_pairs(&rt, rt.alloc(), &params, len)?;
        knows_uncoded(&rt, rt.alloc(), &params, len, n)?;
    }
    Ok(())
}

// Checks eight values of 1, or of 0 if k is 0, by sample splitting with k.
fn knows_splitting(
    rt: &impl Abort,
    alloc: Global,
    params: &Params,
    len: u32,
    k: u32,
) -> Result<(), Fault> {
    holds(rt, len < 64 && k < 64);
    let mut split = BitBuf::new(alloc);
    push_number(rt, &mut split, u64::from(k + 1), len)?;
    split.push_bits(0xFF, 8)?;
    if k > 0 {
        // The value 1 in k bits.
        for _ in 0..8 {
            push_number(rt, &mut split, 1, k)?;
        }
    }
    let end = u64::from(len + 8 + 8 * k);
    expect_block(rt, alloc, params, &split, None, &[k.min(1); 8], end);
    Ok(())
}

#[test]
fn knows_each_splitting_option(rt: HostRuntime) -> Result<(), Fail> {
    for (n, restricted, len, splits) in CODE_SETS {
        let params = unprocessed(n, restricted)?;
        for k in 0..splits {
            knows_splitting(&rt, rt.alloc(), &params, len, k)?;
        }
    }
    Ok(())
}
