//! Decoding from a bit on into a buffer, and the bits where intervals begin.

use crate::asserts::{same, same_at};
use aec_engine::{decode_at_into, offsets_into};
use aec_params::{Fault, Limits, Params, Settings};
use std::alloc::Global;
use std::test::Fail;

// 48 zeros: three intervals of 14 bits, from the examples of FORMAT.md.
const ZEROS: &[u8] = &[0x00, 0x04, 0x00, 0x10, 0x00, 0x40];

/// Decodes from a bit on. Returns `None` if `decode_at_into` takes no such bit.
fn decoded(
    alloc: Global,
    params: &Params,
    limits: Limits,
    bit: u64,
    count: Option<u64>,
    out: &mut [u8],
) -> Option<Result<u64, Fault>> {
    if bit > 48 || params.pad() && bit % 8 != 0 {
        return None;
    }
    Some(decode_at_into(alloc, params, limits, bit, count, ZEROS, out))
}

// A row: a bit; a count; how many bytes the samples take; what a buffer of three nines contains
// after the call.
const ROWS: [(u64, Option<u64>, Result<u64, Fault>, [u8; 3]); 6] = [
    (14, Some(2), Ok(2), [0, 0, 9]),
    (14, Some(3), Ok(3), [0, 0, 0]),
    (14, Some(4), Ok(4), [9, 9, 9]),
    (14, None, Ok(32), [9, 9, 9]),
    (48, Some(0), Ok(0), [9, 9, 9]),
    (28, Some(17), Err(Fault::Truncated { bit: 42 }), [9, 9, 9]),
];

#[test]
fn samples_from_a_bit_on_are_written_if_they_fit(rt: HostRuntime) -> Result<(), Fail> {
    let params = Params::new(Settings::USUAL)?;
    let limits = Limits::new(1 << 32, 1 << 40).ok_or("limits")?;
    for row in &ROWS {
        let (bit, count, wanted, left) = *row;
        let mut out = [9; 3];
        let found = decoded(rt.alloc(), &params, limits, bit, count, &mut out);
        same_at(&rt, (found, out), (Some(wanted), left), row);
    }
    Ok(())
}

#[test]
fn offsets_are_written_if_they_fit(rt: HostRuntime) -> Result<(), Fail> {
    let params = Params::new(Settings::USUAL)?;
    let limits = Limits::new(1 << 32, 1 << 40).ok_or("limits")?;
    let (mut long, mut short) = ([7; 4], [7; 2]);
    let count = offsets_into(rt.alloc(), &params, limits, Some(48), ZEROS, &mut long)?;
    same(&rt, (count, long), (3, [0, 14, 28, 7]));
    let count = offsets_into(rt.alloc(), &params, limits, Some(48), ZEROS, &mut short)?;
    same(&rt, (count, short), (3, [7, 7]));
    Ok(())
}
