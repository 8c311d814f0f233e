//! Lists of generated edits, applied as one with `AecCodec`. The stream must be the code of a plain
//! list that was edited in the same way, edit by edit.

use crate::asserts::{holds_at, same_at};
use crate::mixed_edits::{ROWS, below, expect_code, some_edit};
use crate::plain_lists::{Row, change};
use crate::steps::{apply, apply_all, calls};
use crate::workspaces::workspace;
use aec_edit::Workspace;
use aec_interval::AecCodec;
use aec_params::{Edit, Fault, Params, Samples};
use std::alloc::Global;
use std::process::Abort;
use std::test::Fail;

/// Returns some edits, each of the samples that those before it leave in the list, which it also
/// changes: up to the first that a workspace refuses, with the number of intervals that the others
/// code one by one, and why the last is refused.
fn some_edits(
    alloc: Global,
    seed: &mut u64,
    row: &Row,
    work: &mut Workspace<AecCodec>,
    list: &mut Vec<i64>,
) -> Result<(Vec<Edit>, u64, Option<Fault>), Fail> {
    let (mut edits, mut coded) = (Vec::new(alloc), 0u64);
    for _ in 0..below(seed, 12) {
        let edit = some_edit(alloc, seed, row, list.len() as u64)?;
        let answer = apply(work, &edit);
        if answer.is_ok() {
            change(alloc, list, &edit)?;
        }
        edits.push(edit)?;
        match answer {
            Ok(more) => coded = coded.saturating_add(more),
            Err(fault) => return Ok((edits, coded, Some(fault))),
        }
    }
    Ok((edits, coded, None))
}

/// Applies edits as one to a workspace. If one of them is refused, then applies those before it.
fn expect_batch<R: Abort>(
    rt: &R,
    work: &mut Workspace<AecCodec>,
    edits: &[Edit],
    coded: u64,
    fault: Option<Fault>,
) -> Result<(), Fail> {
    let before = calls(work);
    let mut edits = edits;
    if let Some(fault) = fault {
        let place = edits.len().saturating_sub(1);
        same_at(
            rt,
            apply_all(work, edits),
            Err((place as u64, fault)),
            &place,
        );
        same_at(rt, calls(work), before, &place);
        edits = &edits[..place];
    }
    let answer = apply_all(work, edits).map_err(|_| "refused")?;
    same_at(rt, calls(work), before.saturating_add(answer), &coded);
    holds_at(rt, answer <= coded, &coded);
    Ok(())
}

fn expect_batches<R: Abort>(rt: &R, alloc: Global, row: &Row) -> Result<(), Fail> {
    let params = Params::new(row.settings)?;
    let mut work = workspace(alloc, params, 0, row.limit);
    let mut single = workspace(alloc, params, 0, row.limit);
    let mut list = vec![in alloc; row.low; row.start as usize]?;
    let values = Samples::new(vec![in alloc; row.low; row.start as usize]?);
    let edit = Edit::Append { values };
    apply(&mut single, &edit)?;
    apply(&mut work, &edit)?;
    let mut seed = 1;
    for _ in 0..60 {
        let (edits, coded, fault) = some_edits(alloc, &mut seed, row, &mut single, &mut list)?;
        expect_batch(rt, &mut work, &edits, coded, fault)?;
        expect_code(rt, alloc, &params, row, &work, &list)?;
    }
    Ok(())
}

#[test]
fn edits_applied_as_one_leave_the_code_of_a_plain_list(rt: HostRuntime) -> Result<(), Fail> {
    for row in &ROWS {
        expect_batches(&rt, rt.alloc(), row)?;
    }
    Ok(())
}
