//! A stream of 100,000 intervals by `AecCodec`, each overwritten once. Its length is worked out by
//! hand.

use crate::asserts::same;
use aec_edit::Workspace;
use aec_interval::AecCodec;
use aec_params::{Edit, Fault, Params, Samples, Settings};
use std::alloc::Global;
use std::test::Fail;

/// The number of intervals, each of one block of 8 samples.
const INTERVALS: u64 = 100_000;

/// The bits of an interval of equal samples: 4 for the identifier, 8 for the reference sample, 1
/// for a run of one block.
const BITS: u64 = 13;

/// Returns a workspace whose intervals contain only zeros.
fn of_zeros(alloc: Global) -> Result<Workspace<AecCodec>, Fault> {
    let params = Params::new(Settings {
        interval: 1,
        ..Settings::USUAL
    })?;
    let mut work = Workspace::new(alloc, AecCodec::new(alloc, params), 8 * INTERVALS);
    work.apply(&Edit::Append {
        values: Samples::new(vec![in alloc; 0i64; 800_000]?),
    })?;
    Ok(work)
}

/// Overwrites all samples of an interval with sevens.
fn put_sevens(alloc: Global, work: &mut Workspace<AecCodec>, index: u64) -> Result<u64, Fault> {
    work.apply(&Edit::Overwrite {
        first: index.saturating_mul(8),
        values: Samples::new(vec![in alloc; 7i64; 8]?),
    })
}

#[test]
fn many_coded_intervals_each_overwritten(rt: HostRuntime) -> Result<(), Fail> {
    let mut work = of_zeros(rt.alloc())?;
    same(&rt, work.stream_bits(), BITS * INTERVALS);
    for index in 0..INTERVALS {
        same(&rt, put_sevens(rt.alloc(), &mut work, index), Ok(1));
    }
    // An interval of which every sample is overwritten isn't decoded.
    same(&rt, (work.calls(), work.reads()), (2 * INTERVALS, 0));
    same(
        &rt,
        work.offset(INTERVALS - 1),
        Some(BITS * (INTERVALS - 1)),
    );
    same(&rt, work.stream_bits(), BITS * INTERVALS);
    let last = work.range(rt.alloc(), 8 * (INTERVALS - 1), 8)?;
    same(&rt, last.as_slice(), [7; 8].as_slice());
    Ok(())
}
