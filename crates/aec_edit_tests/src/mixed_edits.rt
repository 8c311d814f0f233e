//! Many generated edits with `AecCodec`. After each edit the stream must be the code of a plain
//! list that was edited in the same way.

use crate::asserts::{holds, holds_at, same, same_at};
use crate::plain_lists::{Row, edit_both, intervals_of};
use crate::steps::{counts, range, start_of, stream};
use crate::workspaces::workspace;
use aec_bits::WriteSink;
use aec_edit::Workspace;
use aec_interval::{AecCodec, encode_all};
use aec_params::{Edit, Fault, Params, Samples, Settings};
use std::alloc::{AllocError, Global};
use std::process::Abort;
use std::test::Fail;

const SHORT: Row = Row {
    settings: Settings {
        bits: 1,
        interval: 1,
        ..Settings::USUAL
    },
    low: 0,
    high: 1,
    most: 8,
    start: 0,
    limit: 100,
};

pub(crate) const ROWS: [Row; 11] = [
    SHORT,
    Row {
        settings: Settings {
            bits: 1,
            block_size: 64,
            interval: 1,
            signed: true,
            pad: true,
            restricted: true,
            ..Settings::USUAL
        },
        low: -1,
        high: 0,
        most: 64,
        start: 100,
        limit: 400,
    },
    Row {
        settings: Settings {
            bits: 4,
            restricted: true,
            ..Settings::USUAL
        },
        low: 0,
        high: 15,
        most: 16,
        start: 30,
        limit: 160,
    },
    Row {
        settings: Settings::USUAL,
        low: 0,
        high: 255,
        most: 16,
        start: 48,
        limit: 160,
    },
    Row {
        settings: Settings {
            bits: 8,
            block_size: 64,
            signed: true,
            pad: true,
            ..Settings::USUAL
        },
        low: -128,
        high: 127,
        most: 128,
        start: 300,
        limit: 500,
    },
    Row {
        settings: Settings {
            bits: 12,
            preprocess: false,
            pad: true,
            ..Settings::USUAL
        },
        low: 0,
        high: 4095,
        most: 16,
        start: 0,
        limit: 160,
    },
    // A few hundred samples around the end of the first interval, which has 32,768.
    Row {
        settings: Settings {
            bits: 12,
            interval: 4096,
            signed: true,
            ..Settings::USUAL
        },
        low: -2048,
        high: 2047,
        most: 32_768,
        start: 32_700,
        limit: 33_000,
    },
    Row {
        settings: Settings {
            bits: 24,
            block_size: 64,
            interval: 4096,
            pad: true,
            ..Settings::USUAL
        },
        low: 0,
        high: 16_777_215,
        most: 262_144,
        start: 0,
        limit: 500,
    },
    Row {
        settings: Settings {
            bits: 32,
            block_size: 64,
            interval: 1,
            signed: true,
            ..Settings::USUAL
        },
        low: -2_147_483_648,
        high: 2_147_483_647,
        most: 64,
        start: 0,
        limit: 400,
    },
    Row {
        settings: Settings {
            bits: 32,
            interval: 1,
            pad: true,
            preprocess: false,
            ..Settings::USUAL
        },
        low: 0,
        high: 4_294_967_295,
        most: 8,
        start: 0,
        limit: 100,
    },
    Row {
        settings: Settings {
            bits: 12,
            block_size: 14,
            even_blocks: true,
            ..Settings::USUAL
        },
        low: 0,
        high: 4095,
        most: 28,
        start: 30,
        limit: 200,
    },
];

/// Returns the next pseudorandom number below the bound.
pub(crate) fn below(seed: &mut u64, bound: u64) -> u64 {
    *seed = seed
        .wrapping_mul(6_364_136_223_846_793_005)
        .wrapping_add(1_442_695_040_888_963_407);
    (*seed >> 31).checked_rem(bound).unwrap_or(0)
}

/// Returns `len` values: all equal, near each other, or any. In one case of eight the last value is
/// no sample.
fn some_values(alloc: Global, seed: &mut u64, row: &Row, len: u64) -> Result<Vec<i64>, AllocError> {
    let all = row
        .high
        .wrapping_sub(row.low)
        .cast_unsigned()
        .saturating_add(1);
    let base = below(seed, all);
    let spread = [1, 1, 3, 9, all, all][below(seed, 6).min(5) as usize];
    let mut values = Vec::new(alloc);
    for _ in 0..len {
        let above = base
            .saturating_add(below(seed, spread))
            .min(all.saturating_sub(1));
        values.push(row.low.wrapping_add(above.cast_signed()))?;
    }
    if below(seed, 8) == 0 {
        values.pop();
        let bad = [row.low.wrapping_sub(1), row.high.wrapping_add(1)];
        values.push(bad[below(seed, 2).min(1) as usize])?;
    }
    Ok(values)
}

/// Returns a place near the end of `count` samples or past it, any place up to the end, or the
/// beginning of an interval.
fn some_place(seed: &mut u64, row: &Row, count: u64) -> u64 {
    let near = count.saturating_add(4).saturating_sub(below(seed, 40));
    let place = [near, below(seed, count.saturating_add(1))][below(seed, 2).min(1) as usize];
    let begin = place.saturating_sub(place.checked_rem(row.most).unwrap_or(0));
    if below(seed, 3) == 0 && begin >= row.start {
        return begin;
    }
    place
}

/// Returns a number of samples for an edit: any up to about two intervals, at most 162, or, if
/// intervals are short, that of whole ones.
fn some_len(seed: &mut u64, row: &Row) -> u64 {
    let any = below(seed, row.most.min(80).saturating_mul(2).saturating_add(3));
    if row.most <= 128 && below(seed, 4) == 0 {
        return row.most.saturating_mul(below(seed, 3));
    }
    any
}

/// Returns some edit of `count` samples.
pub(crate) fn some_edit(
    alloc: Global,
    seed: &mut u64,
    row: &Row,
    count: u64,
) -> Result<Edit, AllocError> {
    let kind = below(seed, 20);
    let place = some_place(seed, row, count);
    if kind < 2 {
        return Ok(Edit::Truncate {
            count: place.max(row.start),
        });
    }
    let len = some_len(seed, row);
    if kind < 5 {
        let first = place.saturating_sub(below(seed, len.saturating_add(1)));
        let len = len.min(count.saturating_sub(row.start));
        return Ok(Edit::Remove { first, len });
    }
    let values = Samples::new(some_values(alloc, seed, row, len)?);
    if kind < 10 {
        return Ok(Edit::Append { values });
    }
    if kind < 15 {
        return Ok(Edit::Insert {
            first: place,
            values,
        });
    }
    Ok(Edit::Overwrite {
        first: place.saturating_sub(below(seed, len.saturating_add(1))),
        values,
    })
}

/// Returns the code of the first `len` samples of a list: its number of bits, and the bytes that
/// they fill.
fn code_of(
    alloc: Global,
    params: &Params,
    list: &[i64],
    len: u64,
) -> Result<(u64, Vec<u8>), Fault> {
    let len = (len as usize).min(list.len());
    let code = encode_all(alloc, params, &list[..len])?;
    let mut sink = WriteSink::new(Vec::new(alloc));
    code.write_to(&mut sink)?;
    Ok((code.len(), sink.into_inner()))
}

/// Checks that the stream is the code of the list, and that each interval begins where the code of
/// the samples before it ends.
pub(crate) fn expect_code<R: Abort>(
    rt: &R,
    alloc: Global,
    params: &Params,
    row: &Row,
    work: &Workspace<AecCodec>,
    list: &[i64],
) -> Result<(), Fail> {
    let count = list.len() as u64;
    let intervals = intervals_of(row, count);
    let (bits, bytes) = code_of(alloc, params, list, count)?;
    same(rt, counts(work), (count, intervals, bits));
    holds(rt, stream(alloc, work)? == bytes);
    for i in 0..intervals {
        let (start, _) = code_of(alloc, params, list, i.saturating_mul(row.most))?;
        same_at(rt, start_of(work, i), Some(start), &i);
    }
    same(rt, start_of(work, intervals), None);
    Ok(())
}

/// Applies a first edit and two hundred more to a workspace and to a plain list, and compares them
/// after each. Checks that each kind, applied and refused, occurs at least ten times, and nothing
/// else.
fn expect_edits<R: Abort>(rt: &R, alloc: Global, row: &Row) -> Result<(), Fail> {
    let params = Params::new(row.settings)?;
    let mut work = workspace(alloc, params, 0, row.limit);
    let mut list = Vec::new(alloc);
    let mut seed = 1;
    let mut kinds = vec![in alloc; 0u32; 9]?;
    let mut edit = Edit::Append {
        values: Samples::new(vec![in alloc; row.low; row.start as usize]?),
    };
    for _ in 0..201 {
        let kind = edit_both(alloc, &mut work, &mut list, &edit)?;
        if let Some(times) = kinds.get_mut(kind) {
            *times = times.saturating_add(1);
        }
        expect_code(rt, alloc, &params, row, &work, &list)?;
        edit = some_edit(alloc, &mut seed, row, list.len() as u64)?;
    }
    holds(rt, range(&mut work, alloc, 0, list.len() as u64)? == list);
    holds_at(rt, kinds.pop() == Some(0), &kinds);
    holds_at(rt, kinds.iter().all(|times| *times >= 10), &kinds);
    Ok(())
}

#[test]
fn mixed_edits_leave_the_code_of_a_plain_list(rt: HostRuntime) -> Result<(), Fail> {
    for row in &ROWS {
        expect_edits(&rt, rt.alloc(), row)?;
    }
    Ok(())
}
