//! Applies the edits of a script many at a time.

ghost use Rattle.std.specs.Prelude.{◌≡◌, ◌+◌, ◌-◌, ◌^◌, ◌<◌, ◌≤◌, ◌⊎◌, Ok, length, slice_index, IfOk, IfErr};
ghost use Rattle.aec_params.specs.declared.fault.Fault.TheVariants.{Memory};
ghost use Rattle.aec_edit.specs.Unchanged.{KeepsRules};
ghost use Rattle.aec_engine.specs.declared.scripts.EditFault.TheVariants.{Plain};
ghost use Rattle.aec_engine.specs.Editing.{edits_left, left_with};
ghost use Rattle.aec_engine.specs.EditingSteps.{StopsAsOne, StopsEditing};
ghost use Rattle.aec_engine.specs.EditsAhead.{AreAhead, left_in};

use crate::script_edits::EditsAhead;
use crate::scripts::{EditFault, Script};
use aec_bits::Codec;
use aec_edit::Workspace;
use std::alloc::Global;

/// Returns the line of the edit at a place of a script.
pub(crate) fn line_of(script: &Script, place: usize) -> u64
    requires { place < length script.now.lines.items }
    ensures { result ≡ slice_index script.now.lines.items place }
{
    script.lines[place]
}

/// Applies all edits of a script as one, as if `left` calls of the codec were left. Returns how
/// many calls they need one after the other. Fails with the first edit that is refused, and its
/// line, or with plain `Memory`.
fn carry_as_one<C: Codec>(
    workspace: &mut Workspace<C>,
    script: &Script,
    left: u64,
) -> Result<u64, EditFault>
    requires lines { length script.now.edits.items ≡ length script.now.lines.items }
    requires calls { C.called workspace.old.codec + left ≤ 2 ^ 64 - 1 }
    ensures ok { IfOk result (λ needed. edits_left (C.format workspace.old.codec)
        workspace.old.limit (2 ^ 64 - 1 - left) workspace.old.samples
        script.now.edits.items script.now.lines.items
        ≡ Ok (left_with workspace.new.samples (2 ^ 64 - 1 - left + needed))) }
    ensures calls { IfOk result (λ needed. (needed ≤ left)
        × (C.called workspace.new.codec + (left - needed) ≤ 2 ^ 64 - 1)) }
    ensures refuses { IfErr result (StopsAsOne (C.format workspace.old.codec)
        workspace.old.limit (2 ^ 64 - 1 - left) workspace.old.samples
        script.now.edits.items script.now.lines.items) }
    ensures rules { KeepsRules C.format workspace.old workspace.new }
{
    let needed = match workspace.judge_all(&script.edits, left) {
        Ok(needed) => needed,
        Err(stop) => {
            return Err(EditFault::Line {
                line: line_of(script, stop.place as usize),
                fault: stop.fault,
            });
        }
    };
    match workspace.apply_all(&script.edits) {
        Ok(_) => Ok(needed),
        Err(stop) => Err(EditFault::Plain(stop.fault)),
    }
}

/// Applies the edits that are ahead, many at a time, as if `left` calls of the codec were left.
/// Returns how many calls are then left, if each edit makes the calls that it needs alone. Fails
/// with the first edit that is refused, and its line; or with plain `Memory`. Some of the edits may
/// have been applied by then.
pub(crate) fn carry_at_once<C: Codec>(
    alloc: Global,
    workspace: &mut Workspace<C>,
    ahead: &mut EditsAhead,
    left: u64,
) -> Result<u64, EditFault>
    requires ahead { AreAhead ahead.old }
    requires calls { C.called workspace.old.codec + left ≤ 2 ^ 64 - 1 }
    ensures ok { IfOk result (λ rest. edits_left (C.format workspace.old.codec)
        workspace.old.limit (2 ^ 64 - 1 - left) workspace.old.samples
        (left_in ahead.old).edits (left_in ahead.old).lines
        ≡ Ok (left_with workspace.new.samples (2 ^ 64 - 1 - rest))) }
    ensures refuses { IfErr result (λ fault. (fault ≡ Plain Memory)
        ⊎ StopsEditing (C.format workspace.old.codec) workspace.old.limit
        (2 ^ 64 - 1 - left) workspace.old.samples
        (left_in ahead.old).edits (left_in ahead.old).lines fault) }
    ensures rules { KeepsRules C.format workspace.old workspace.new }
{
    let mut rest = left;
    while ahead.next.is_some() {
        let script = ahead.take_some(alloc)?;
        rest -= carry_as_one(workspace, &script, rest)?;
    }
    Ok(rest)
}
