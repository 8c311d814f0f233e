//! Edits of a workspace and of a plain list.

use crate::steps::apply;
use aec_bits::Codec;
use aec_edit::Workspace;
use aec_params::{Edit, Fault, Settings};
use std::alloc::{AllocError, Global};
use std::test::Fail;

/// Settings, their samples and intervals, and the lengths of a list.
#[derive(Clone, Copy)]
pub(crate) struct Row {
    pub(crate) settings: Settings,
    // The least sample and the greatest.
    pub(crate) low: i64,
    pub(crate) high: i64,
    // The number of samples in an interval.
    pub(crate) most: u64,
    // The number of samples before the first edit, and the limit.
    pub(crate) start: u64,
    pub(crate) limit: u64,
}

/// Returns how many intervals `count` samples fill, the last one wholly or in part.
pub(crate) fn intervals_of(row: &Row, count: u64) -> u64 {
    let filled = count.saturating_add(row.most.saturating_sub(1));
    filled.checked_div(row.most).unwrap_or(0)
}

fn values_of(edit: &Edit) -> &[i64] {
    match edit {
        Edit::Overwrite { values, .. } => values.as_slice(),
        Edit::Append { values } => values.as_slice(),
        Edit::Insert { values, .. } => values.as_slice(),
        _ => &[],
    }
}

/// Returns the first place and the end of the samples that an edit of `count` samples replaces by
/// its values.
fn places_of(count: u64, edit: &Edit) -> (u64, u64) {
    match edit {
        Edit::Overwrite { first, values } => (
            *first,
            first.saturating_add(values.as_slice().len() as u64),
        ),
        Edit::Append { .. } => (count, count),
        Edit::Truncate { count: kept } => (*kept, count.max(*kept)),
        Edit::Insert { first, .. } => (*first, *first),
        Edit::Remove { first, len } => (*first, first.saturating_add(*len)),
    }
}

/// Applies an edit to a plain list.
pub(crate) fn change(alloc: Global, list: &mut Vec<i64>, edit: &Edit) -> Result<(), AllocError> {
    let (first, stop) = places_of(list.len() as u64, edit);
    let mut behind = Vec::new(alloc);
    behind.extend_from_slice(list.get(stop as usize..).unwrap_or(&[]))?;
    list.truncate(first as usize);
    list.extend_from_slice(values_of(edit))?;
    list.extend_from_slice(&behind)
}

/// Returns the place of what happened among these: an overwrite, an append, a truncation, an
/// insertion or a removal was applied; an edit was refused as out of range, as too many, as no
/// sample; anything else.
fn kind_of(edit: &Edit, answer: Result<u64, Fault>) -> usize {
    match (answer, edit) {
        (Ok(_), Edit::Overwrite { .. }) => 0,
        (Ok(_), Edit::Append { .. }) => 1,
        (Ok(_), Edit::Truncate { .. }) => 2,
        (Ok(_), Edit::Insert { .. }) => 3,
        (Ok(_), Edit::Remove { .. }) => 4,
        (Err(Fault::OutOfRange { .. }), _) => 5,
        (Err(Fault::TooManySamples { .. }), _) => 6,
        (Err(Fault::SampleRange { .. }), _) => 7,
        (Err(_), _) => 8,
    }
}

/// Applies an edit to a workspace, and to the list if the workspace takes it. Returns what
/// happened.
pub(crate) fn edit_both<C: Codec>(
    alloc: Global,
    work: &mut Workspace<C>,
    list: &mut Vec<i64>,
    edit: &Edit,
) -> Result<usize, Fail> {
    let answer = apply(work, edit);
    if answer.is_ok() {
        change(alloc, list, edit)?;
    }
    Ok(kind_of(edit, answer))
}
