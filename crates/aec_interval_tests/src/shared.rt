//! Lists of samples as tables spell them, and a comparison of bits with bytes.

use crate::asserts::same;
use aec_bits::{BitBuf, WriteSink};
use aec_params::Fault;
use std::alloc::Global;
use std::process::Abort;
use std::test::Fail;

/// The greatest limit of samples.
pub(crate) const MOST: u64 = 1 << 32;

/// The samples 0 to 7, and 0 to 9.
pub(crate) const RAMP: &[(i64, usize)] = &[
    (0, 1),
    (1, 1),
    (2, 1),
    (3, 1),
    (4, 1),
    (5, 1),
    (6, 1),
    (7, 1),
];

pub(crate) const RAMP_OF_TEN: &[(i64, usize)] = &[
    (0, 1),
    (1, 1),
    (2, 1),
    (3, 1),
    (4, 1),
    (5, 1),
    (6, 1),
    (7, 1),
    (8, 1),
    (9, 1),
];

/// Returns the samples of a row: values, each with its number of copies.
pub(crate) fn list_of(alloc: Global, runs: &[(i64, usize)]) -> Result<Vec<i64>, Fault> {
    let mut list = Vec::new(alloc);
    for (value, copies) in runs {
        for _ in 0..*copies {
            list.push(*value)?;
        }
    }
    Ok(list)
}

/// Checks the number of bits, and the bytes that the bits fill. Zeros fill up the last byte.
pub(crate) fn expect_bits(
    rt: &impl Abort,
    alloc: Global,
    bits: &BitBuf,
    len: u64,
    bytes: &[u8],
) -> Result<(), Fail> {
    let mut sink = WriteSink::new(Vec::new(alloc));
    bits.write_to(&mut sink)?;
    same(rt, (bits.len(), sink.into_inner().as_slice()), (len, bytes));
    Ok(())
}
