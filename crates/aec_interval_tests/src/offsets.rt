//! The bits where intervals begin, and decoding from there on.

use crate::asserts::same_at;
use crate::settings::{PADDED, USUAL};
use crate::shared::{MOST, RAMP, list_of};
use aec_bits::BitBuf;
use aec_interval::{decode_at, encode_all, interval_offsets};
use aec_params::{Fault, Params, Settings};
use std::alloc::Global;
use std::process::Abort;
use std::test::Fail;

/// Decodes from a bit on. Returns `None` if `decode_at` takes no such bit.
fn decoded(
    alloc: Global,
    params: &Params,
    bits: &BitBuf,
    start: u64,
    count: Option<u64>,
) -> Option<Result<Vec<i64>, Fault>> {
    if start > bits.len() || params.pad() && start % 8 != 0 {
        return None;
    }
    Some(decode_at(alloc, params, bits, start, count, MOST))
}

/// Checks the result of decoding from a bit on.
fn expect_from(
    rt: &impl Abort,
    found: Option<Result<Vec<i64>, Fault>>,
    wanted: Result<&[i64], Fault>,
    case: (usize, u64, usize),
) {
    match found {
        Some(Ok(samples)) => same_at(rt, Some(Ok(samples.as_slice())), Some(wanted), &case),
        Some(Err(fault)) => same_at(rt, Some(Err(fault)), Some(wanted), &case),
        None => same_at(rt, None, Some(wanted), &case),
    }
}

// A row: settings; samples; the bit where each of their intervals of 16 samples begins.
const OFFSETS: [(Settings, &[(i64, usize)], &[u64]); 7] = [
    (USUAL, &[], &[]),
    (USUAL, RAMP, &[0]),
    // Intervals of 14 bits. With padding each has two bytes.
    (USUAL, &[(0, 17)], &[0, 14]),
    (USUAL, &[(0, 48)], &[0, 14, 28]),
    (PADDED, &[(0, 48)], &[0, 16, 32]),
    // The middle interval has 25 bits.
    (USUAL, &[(0, 20), (1, 1), (0, 27)], &[0, 14, 39]),
    (PADDED, &[(0, 20), (1, 1), (0, 27)], &[0, 16, 48]),
];

#[test]
fn intervals_begin_at_their_offsets(rt: HostRuntime) -> Result<(), Fail> {
    for (row, (settings, runs, wanted)) in OFFSETS.iter().enumerate() {
        let samples = list_of(rt.alloc(), runs)?;
        let params = Params::new(*settings)?;
        let code = encode_all(rt.alloc(), &params, &samples)?;
        let count = Some(samples.len() as u64);
        let offsets = interval_offsets(rt.alloc(), &params, &code, count, MOST)?;
        same_at(&rt, offsets.as_slice(), *wanted, &row);
    }
    Ok(())
}

#[test]
fn each_interval_is_decoded_from_its_offset_on(rt: HostRuntime) -> Result<(), Fail> {
    for (row, (settings, runs, begins)) in OFFSETS.iter().enumerate() {
        let samples = list_of(rt.alloc(), runs)?;
        let params = Params::new(*settings)?;
        let code = encode_all(rt.alloc(), &params, &samples)?;
        let mut rest = samples.as_slice();
        for start in *begins {
            for len in 0..rest.len().saturating_add(1) {
                let found = decoded(rt.alloc(), &params, &code, *start, Some(len as u64));
                let wanted = rest.get(..len).unwrap_or(&[]);
                expect_from(&rt, found, Ok(wanted), (row, *start, len));
            }
            rest = &rest[rest.len().min(16)..];
        }
    }
    Ok(())
}

#[test]
fn bits_of_faults_are_counted_from_the_first_bit(rt: HostRuntime) -> Result<(), Fail> {
    // Of 48 zeros only 24 bits are left: the second interval lacks its end.
    let params = Params::new(USUAL)?;
    let cut = BitBuf::from_bytes(rt.alloc(), &[0x00, 0x04, 0x00])?;
    let found = decoded(rt.alloc(), &params, &cut, 14, Some(16));
    expect_from(&rt, found, Err(Fault::Truncated { bit: 14 }), (0, 14, 16));
    // Without a count a rest of zero bits ends the stream.
    let found = decoded(rt.alloc(), &params, &cut, 14, None);
    expect_from(&rt, found, Ok(&[]), (1, 14, 0));
    Ok(())
}
