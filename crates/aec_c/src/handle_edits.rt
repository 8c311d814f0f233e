//! Edits of the workspace that a handle holds.

ghost use Rattle.std.specs.Prelude.{◌≡◌, IfOk, IfErr};
ghost use Rattle.aec_params.specs.declared.fault.Fault.TheVariants.{Memory};
ghost use Rattle.aec_params.specs.declared.edit.Edit.TheVariants.{Overwrite, Append, Insert};
ghost use Rattle.aec_c.specs.Kinds.{value_in, workspace_in};
ghost use Rattle.aec_c.specs.HandleCalls.{OnHandle, MakesEdit, MakesCopiedEdit, edit_reply};

use crate::kinds::Open;
use crate::reply::{Reply, answered, not_open, refused};
use aec_params::{Edit, Fault, Samples};
use std::alloc::Global;

/// Returns the reply to an edit: how many intervals it coded, or its refusal.
fn edit_reply(answer: Result<u64, Fault>) -> Reply
    ensures { result ≡ edit_reply answer }
{
    match answer {
        Ok(coded) => answered(coded),
        Err(fault) => refused(fault),
    }
}

/// Copies values for an edit. Fails with `Memory` if the allocation fails.
pub(crate) fn copy_values(alloc: Global, values: &[i64]) -> Result<Samples, Fault>
    ensures ok { IfOk result (λ samples. samples ≡ values.now) }
    ensures fault { IfErr result (λ fault. fault ≡ Memory) }
{
    Ok(Samples::new(Vec::from_slice(alloc, values)?))
}

/// Applies an edit to the workspace that a handle holds.
pub(crate) fn apply_edit(inside: &mut Option<Box<Open>>, edit: &Edit) -> Reply
    ensures { OnHandle workspace_in (MakesEdit edit.now) (value_in inside.old) (value_in inside.new)
        result }
{
    match inside {
        Some(held) => match &mut **held {
            Open::Workspace(work) => edit_reply(work.workspace.apply(edit)),
            _ => not_open(),
        },
        None => not_open(),
    }
}

/// Applies an edit to the workspace that a handle holds, as `apply_edit` does, and drops the edit.
fn apply_and_drop(inside: &mut Option<Box<Open>>, edit: Edit) -> Reply
    ensures { OnHandle workspace_in (MakesEdit edit) (value_in inside.old) (value_in inside.new)
        result }
{
    apply_edit(inside, &edit)
}

/// Overwrites the samples from place `first` on with copied values.
pub(crate) fn overwrite(
    alloc: Global,
    inside: &mut Option<Box<Open>>,
    first: u64,
    values: &[i64],
) -> Reply
    ensures { MakesCopiedEdit (Overwrite first values.now) (value_in inside.old)
        (value_in inside.new) result }
{
    match copy_values(alloc, values) {
        Ok(values) => apply_and_drop(inside, Edit::Overwrite { first, values }),
        Err(_) => refused(Fault::Memory),
    }
}

/// Inserts copied values before the sample at place `first`, or after the last one.
pub(crate) fn insert(
    alloc: Global,
    inside: &mut Option<Box<Open>>,
    first: u64,
    values: &[i64],
) -> Reply
    ensures { MakesCopiedEdit (Insert first values.now) (value_in inside.old)
        (value_in inside.new) result }
{
    match copy_values(alloc, values) {
        Ok(values) => apply_and_drop(inside, Edit::Insert { first, values }),
        Err(_) => refused(Fault::Memory),
    }
}

/// Appends values to the samples of the workspace that a handle holds, without a copy.
pub(crate) fn append(inside: &mut Option<Box<Open>>, values: &[i64]) -> Reply
    ensures { OnHandle workspace_in (MakesEdit (Append values.now)) (value_in inside.old)
        (value_in inside.new) result }
{
    match inside {
        Some(held) => match &mut **held {
            Open::Workspace(work) => edit_reply(work.workspace.append(values)),
            _ => not_open(),
        },
        None => not_open(),
    }
}
