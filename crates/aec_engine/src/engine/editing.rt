//! Edits coded data by a script.

ghost use Rattle.std.specs.Prelude.{◌≡◌, ◌+◌, ◌≤◌, ◌^◌, ◌⊎◌, false, length, None, Ok, IfOk, IfErr, OnOk};
ghost use Rattle.std.specs.Io.KnownBytes.{Appends};
ghost use Rattle.aec_params.specs.declared.fault.Fault.TheVariants.{Memory};
ghost use Rattle.aec_params.specs.Codewords.{bytes_of};
ghost use Rattle.aec_bits.specs.Codec.{code_of};
ghost use Rattle.aec_interval.specs.IntervalFormat.{interval_format};
ghost use Rattle.aec_edit.specs.Unchanged.{KeepsRules};
ghost use Rattle.aec_engine.specs.declared.scripts.EditFault.TheVariants.{Plain};
ghost use Rattle.aec_engine.specs.Transfers.{Taking, taking_of, Putting, putting_of, answer_by};
ghost use Rattle.aec_engine.specs.Scripts.{listing_of};
ghost use Rattle.aec_engine.specs.Editing.{edits_left, left_with, LeavesRecoded, LeavesEdited};
ghost use Rattle.aec_engine.specs.EditingSteps.{CarriesOut, GaveScript, RefusesScript, StopsEditing, recoded_of};
ghost use Rattle.aec_engine.specs.ScriptLines.{text_left};
ghost use Rattle.aec_engine.specs.Planning.{listing_in, text_behind};
ghost use Rattle.aec_engine.specs.Judging.{HasRoomOfRead, IsUnread};
ghost use Rattle.aec_engine.specs.EarlyEdits.{IsEmptyFor, EditsSamples, EditsBits};
ghost use Rattle.aec_engine.specs.EditsAhead.{AreAhead, left_in};
ghost use Rattle.aec_engine.specs.Delivering.{Delivers};

use crate::engine::at_once::{carry_at_once, line_of};
use crate::engine::bit_intake::read_bits;
use crate::engine::intake::read_whole;
use crate::engine::loading::{Room, append_all, judged_reader, roomy_workspace};
use crate::engine::two_readings::room_at_once;
use crate::script_edits::{EditsAhead, judge_script};
use crate::script_plan::{Plan, plan_script};
use crate::scripts::{EditFault, Script};
use aec_bits::{BitBuf, Codec, Sink, Source};
use aec_edit::Workspace;
use aec_interval::{AecCodec, StreamReader};
use aec_params::{Fault, Limits, Params};
use std::alloc::Global;

/// Reads the text of a script from a source, and judges its lines.
fn read_script<Q: Source>(
    alloc: Global,
    limits: Limits,
    script_source: &mut Q,
) -> Result<Vec<u8>, Fault>
    ensures ok { let took : Taking
        = taking_of Q.left Q.failed script_source.old script_source.new in
        IfOk result (λ text. GaveScript took limits.bytes (listing_of text.items)) }
    ensures known { IfOk result (λ text. (listing_of text.items).bad ≡ None) }
    ensures refuses { let took : Taking
        = taking_of Q.left Q.failed script_source.old script_source.new in
        IfErr result (λ fault. RefusesScript took limits.bytes fault) }
{
    let text = read_whole(alloc, script_source, limits.bytes())?;
    judge_script(&text)?;
    Ok(text)
}

/// Applies the edits that are ahead, up to the first that is refused: the edits before it are
/// applied, and the fault names its line. Fails with plain `Memory` if the allocation for the
/// values of the next edit fails.
fn carry_rest<C: Codec>(
    alloc: Global,
    workspace: &mut Workspace<C>,
    ahead: &mut EditsAhead,
) -> Result<(), EditFault>
    requires ahead { AreAhead ahead.old }
    ensures ok { OnOk result (edits_left (C.format workspace.old.codec) workspace.old.limit
        (C.called workspace.old.codec) workspace.old.samples
        (left_in ahead.old).edits (left_in ahead.old).lines
        ≡ Ok (left_with workspace.new.samples (C.called workspace.new.codec))) }
    ensures refuses { IfErr result (λ fault. (fault ≡ Plain Memory)
        ⊎ StopsEditing (C.format workspace.old.codec) workspace.old.limit
        (C.called workspace.old.codec) workspace.old.samples
        (left_in ahead.old).edits (left_in ahead.old).lines fault) }
    ensures rules { KeepsRules C.format workspace.old workspace.new }
{
    while let Some(next) = &ahead.next {
        if let Err(fault) = workspace.apply(&next.edit) {
            return Err(EditFault::Line {
                line: next.line,
                fault,
            });
        }
        ahead.advance(alloc)?;
    }
    Ok(())
}

/// Applies the edits that are ahead: many at a time, if `at_once` is set and they aren't few, else
/// one by one. Returns how often the codec was called before, plus how many calls the edits need
/// one after the other. Fails with the first refused edit and its line, or with `Memory`, which has
/// a line only if the edit was applied alone.
fn carry_ahead<C: Codec>(
    alloc: Global,
    workspace: &mut Workspace<C>,
    ahead: &mut EditsAhead,
    at_once: bool,
) -> Result<u64, EditFault>
    requires ahead { AreAhead ahead.old }
    ensures ok { IfOk result (λ calls. edits_left (C.format workspace.old.codec)
        workspace.old.limit (C.called workspace.old.codec) workspace.old.samples
        (left_in ahead.old).edits (left_in ahead.old).lines
        ≡ Ok (left_with workspace.new.samples calls)) }
    ensures counted { at_once ≡ false
        → IfOk result (λ calls. calls ≡ C.called workspace.new.codec) }
    ensures refuses { IfErr result (λ fault. (fault ≡ Plain Memory)
        ⊎ StopsEditing (C.format workspace.old.codec) workspace.old.limit
        (C.called workspace.old.codec) workspace.old.samples
        (left_in ahead.old).edits (left_in ahead.old).lines fault) }
    ensures rules { KeepsRules C.format workspace.old workspace.new }
{
    if at_once && !ahead.are_few() {
        let left = u64::MAX - workspace.calls();
        let rest = carry_at_once(alloc, workspace, ahead, left)?;
        return Ok(u64::MAX - rest);
    }
    carry_rest(alloc, workspace, ahead)?;
    Ok(workspace.calls())
}

/// A workspace with the samples that a script leaves, and how many calls of the codec it takes to
/// load the samples and to apply the edits one after the other.
#[derive(Drop)]
struct Carried<C: Codec + Drop> {
    workspace: Workspace<C>,
    calls: u64,
}

/// Appends the samples of a reader to an empty workspace over a codec that has coded nothing,
/// applies the edits of a plan to them, and returns the workspace.
fn edit_planned<C: Codec + Drop>(
    alloc: Global,
    params: &Params,
    reader: &mut StreamReader,
    mut workspace: Workspace<C>,
    plan: &Plan,
    at_once: bool,
) -> Result<Carried<C>, EditFault>
    requires unread { IsUnread reader.old params.now }
    requires format { C.format workspace.codec ≡ interval_format params.now }
    requires empty { IsEmptyFor reader.old (C.format workspace.codec) workspace.limit
        workspace.samples (C.called workspace.codec) }
    requires room { HasRoomOfRead reader.old workspace.room.bits workspace.room.intervals }
    requires sound { (listing_in plan.now).bad ≡ None }
    requires few { plan.now.lines_read + text_left (text_behind plan.now) ≤ 2 ^ 63 }
    ensures edits { EditsSamples params.now workspace.limit reader.old (listing_in plan.now)
        (answer_by (λ c. recoded_of (C.format c.workspace.codec) c.workspace.samples c.calls)
        result) }
    ensures counted { at_once ≡ false
        → IfOk result (λ c. c.calls ≡ C.called c.workspace.codec) }
    ensures format { IfOk result (λ c. C.format c.workspace.codec ≡ interval_format params.now) }
    ensures limit { IfOk result (λ c. c.workspace.limit ≡ workspace.limit) }
{
    let mut samples = room_at_once(alloc, params)?;
    let mut ahead = EditsAhead::new(alloc, plan)?;
    append_all(
        alloc,
        params,
        reader,
        &mut samples,
        &mut workspace,
        &mut ahead,
    )?;
    let calls = carry_ahead(alloc, &mut workspace, &mut ahead, at_once)?;
    Ok(Carried { workspace, calls })
}

/// How coded bits are edited: the parameters of their samples, the limits, the number of samples,
/// or `None` for all; and whether edits may be applied many at a time.
#[derive(Clone, Copy)]
struct EditTerms {
    params: Params,
    limits: Limits,
    count: Option<u64>,
    at_once: bool,
}

/// Decodes bits to samples, applies the edits of a script to them, and returns a workspace with the
/// samples that are left. `codec` must have coded nothing, and the lines of the script must have
/// been judged. All bits are judged before memory is allocated for samples and before an edit is
/// applied.
fn edit_bits<C: Codec + Drop>(
    alloc: Global,
    codec: C,
    terms: EditTerms,
    bits: &BitBuf,
    script: &[u8],
) -> Result<Carried<C>, EditFault>
    requires format { C.format codec ≡ interval_format terms.params }
    requires fresh { C.called codec ≡ 0 }
    requires known { (listing_of script.now).bad ≡ None }
    ensures edits { EditsBits terms.params terms.limits terms.count bits.now.list
        (listing_of script.now)
        (answer_by (λ c. recoded_of (C.format c.workspace.codec) c.workspace.samples c.calls)
        result) }
    ensures counted { terms.at_once ≡ false
        → IfOk result (λ c. c.calls ≡ C.called c.workspace.codec) }
    ensures format { IfOk result (λ c. C.format c.workspace.codec ≡ interval_format terms.params) }
    ensures limit { IfOk result (λ c. c.workspace.limit ≡ terms.limits.samples) }
{
    let params = terms.params;
    let (mut reader, judged) = judged_reader(alloc, &params, terms.limits, terms.count, bits)?;
    let room = Room::of(&params, judged);
    let plan = plan_script(alloc, &params, judged.total, script, terms.at_once)?;
    let workspace = roomy_workspace(alloc, codec, terms.limits, room)?;
    edit_planned(alloc, &params, &mut reader, workspace, &plan, terms.at_once)
}

/// Calls `begin`, and writes the bytes of the code of a workspace's samples. Fails with `Write` if
/// the sink fails.
fn deliver_code<C: Codec, W: Sink>(workspace: &Workspace<C>, sink: &mut W) -> Result<(), Fault>
    ensures { let put : Putting = putting_of W.taken W.begun W.mark W.failed sink.old sink.new in
        Delivers (bytes_of (code_of (C.format workspace.now.codec) workspace.now.samples)) put
        result }
{
    sink.begin()?;
    workspace.write_to(sink)
}

/// Does what `edit` does, and returns the workspace whose stream it wrote, and how many calls of
/// the codec it takes to load the samples and to apply the edits one after the other.
fn edit_with<C: Codec + Drop, Q: Source, R: Source, W: Sink>(
    alloc: Global,
    codec: C,
    terms: EditTerms,
    script_source: &mut Q,
    source: &mut R,
    sink: &mut W,
) -> Result<Carried<C>, EditFault>
    requires format { C.format codec ≡ interval_format terms.params }
    requires fresh { C.called codec ≡ 0 }
    ensures leaves { let read : Taking
        = taking_of Q.left Q.failed script_source.old script_source.new in
        let took : Taking = taking_of R.left R.failed source.old source.new in
        let put : Putting = putting_of W.taken W.begun W.mark W.failed sink.old sink.new in
        LeavesRecoded terms.params terms.limits terms.count read took put
        (answer_by (λ c. c.calls) result) }
    ensures stream { IfOk result
        (λ c. Appends (W.taken sink.old) (W.taken sink.new)
        (bytes_of (code_of (C.format c.workspace.codec) c.workspace.samples))) }
    ensures counted { terms.at_once ≡ false
        → IfOk result (λ c. c.calls ≡ C.called c.workspace.codec) }
    ensures format { IfOk result (λ c. C.format c.workspace.codec ≡ interval_format terms.params) }
    ensures limit { IfOk result (λ c. c.workspace.limit ≡ terms.limits.samples) }
{
    let script = read_script(alloc, terms.limits, script_source)?;
    let bits = read_bits(alloc, source, terms.limits.bytes())?;
    let carried = edit_bits(alloc, codec, terms, &bits, &script)?;
    deliver_code(&carried.workspace, sink)?;
    Ok(carried)
}

/// Does what `edit` does, over a codec of intervals that has coded nothing, but applies the edits
/// one by one, and returns the workspace whose stream it wrote. The workspace shows how often the
/// codec was called: once for each interval of the source's samples, and once for each interval
/// that an edit codes. Fails as `edit` does.
pub fn edit_over<C: Codec + Drop, Q: Source, R: Source, W: Sink>(
    alloc: Global,
    codec: C,
    params: &Params,
    limits: Limits,
    count: Option<u64>,
    script_source: &mut Q,
    source: &mut R,
    sink: &mut W,
) -> Result<Workspace<C>, EditFault>
    requires format { C.format codec ≡ interval_format params.now }
    requires fresh { C.called codec ≡ 0 }
    ensures leaves { let read : Taking
        = taking_of Q.left Q.failed script_source.old script_source.new in
        let took : Taking = taking_of R.left R.failed source.old source.new in
        let put : Putting = putting_of W.taken W.begun W.mark W.failed sink.old sink.new in
        LeavesRecoded params.now limits count read took put
        (answer_by (λ w. C.called w.codec) result) }
    ensures stream { IfOk result
        (λ w. Appends (W.taken sink.old) (W.taken sink.new)
        (bytes_of (code_of (C.format w.codec) w.samples))) }
    ensures format { IfOk result (λ w. C.format w.codec ≡ interval_format params.now) }
    ensures limit { IfOk result (λ w. w.limit ≡ limits.samples) }
{
    let terms = EditTerms {
        params: *params,
        limits,
        count,
        at_once: false,
    };
    match edit_with(alloc, codec, terms, script_source, source, sink) {
        Ok(Carried { workspace, .. }) => Ok(workspace),
        Err(fault) => Err(fault),
    }
}

/// Does what `edit` does, over a codec of intervals that has coded nothing, and returns the
/// workspace whose stream it wrote. Applies edits many at a time: no clause says how often it calls
/// the codec. Fails as `edit` does.
pub fn edit_at_once<C: Codec + Drop, Q: Source, R: Source, W: Sink>(
    alloc: Global,
    codec: C,
    params: &Params,
    limits: Limits,
    count: Option<u64>,
    script_source: &mut Q,
    source: &mut R,
    sink: &mut W,
) -> Result<Workspace<C>, EditFault>
    requires format { C.format codec ≡ interval_format params.now }
    requires fresh { C.called codec ≡ 0 }
    ensures leaves { let read : Taking
        = taking_of Q.left Q.failed script_source.old script_source.new in
        let took : Taking = taking_of R.left R.failed source.old source.new in
        let put : Putting = putting_of W.taken W.begun W.mark W.failed sink.old sink.new in
        LeavesEdited params.now limits count read took put (answer_by (λ w. tt) result) }
    ensures stream { IfOk result
        (λ w. Appends (W.taken sink.old) (W.taken sink.new)
        (bytes_of (code_of (C.format w.codec) w.samples))) }
    ensures format { IfOk result (λ w. C.format w.codec ≡ interval_format params.now) }
    ensures limit { IfOk result (λ w. w.limit ≡ limits.samples) }
{
    let terms = EditTerms {
        params: *params,
        limits,
        count,
        at_once: true,
    };
    match edit_with(alloc, codec, terms, script_source, source, sink) {
        Ok(Carried { workspace, .. }) => Ok(workspace),
        Err(fault) => Err(fault),
    }
}

// bare: it only calls `edit_at_once`, which has must-fail edits
/// Reads a script whole, then the source, applies the edits of the script to the samples that the
/// source codes (the first `count`, or all without a count), and writes the bytes of the code of
/// the samples that the edits leave.
///
/// The refusals in their order:
///
/// - `Read`, `StreamTooLong` and `Memory`, as they are met while the script is read; then `Script`.
///   Up to here nothing is taken from the source.
/// - Those of `decode`.
/// - `Memory`, also if there is no room to read a line again before its edit is applied.
/// - That of the first edit that is refused for its place, the limit, its values or lack of calls.
/// - `Write`, after `begin`; then a prefix of the bytes is written. On all other refusals nothing
///   is written and `begin` isn't called.
///
/// A refused edit's fault names its line; so does `Memory` if the edit is applied alone. All others
/// name none. Edits may be applied in another order than the script's, or many at a time.
pub fn edit<Q: Source, R: Source, W: Sink>(
    alloc: Global,
    params: &Params,
    limits: Limits,
    count: Option<u64>,
    script_source: &mut Q,
    source: &mut R,
    sink: &mut W,
) -> Result<(), EditFault>
    ensures { let read : Taking = taking_of Q.left Q.failed script_source.old script_source.new in
        let took : Taking = taking_of R.left R.failed source.old source.new in
        let put : Putting = putting_of W.taken W.begun W.mark W.failed sink.old sink.new in
        LeavesEdited params.now limits count read took put result }
{
    let codec = AecCodec::new(alloc, *params);
    edit_at_once(
        alloc,
        codec,
        params,
        limits,
        count,
        script_source,
        source,
        sink,
    )?;
    Ok(())
}

/// Applies the edits of a script, up to the first that is refused: the edits before it are applied,
/// and the fault names its line.
pub fn carry_out<C: Codec>(workspace: &mut Workspace<C>, script: &Script) -> Result<(), EditFault>
    requires lines { length script.now.edits.items ≤ length script.now.lines.items }
    ensures ok { OnOk result (edits_left (C.format workspace.old.codec) workspace.old.limit
        (C.called workspace.old.codec) workspace.old.samples
        script.now.edits.items script.now.lines.items
        ≡ Ok (left_with workspace.new.samples (C.called workspace.new.codec))) }
    ensures refuses { IfErr result
        (λ fault. StopsEditing (C.format workspace.old.codec) workspace.old.limit
        (C.called workspace.old.codec)
        workspace.old.samples script.now.edits.items script.now.lines.items fault) }
    ensures carries { CarriesOut (C.format workspace.old.codec) workspace.old.limit
        workspace.old.samples (C.called workspace.old.codec)
        (C.read workspace.old.codec) script.now.edits.items script.now.lines.items result
        workspace.new.samples
        (C.called workspace.new.codec) (C.read workspace.new.codec) }
    ensures limit { workspace.new.limit ≡ workspace.old.limit }
    ensures format { C.format workspace.new.codec ≡ C.format workspace.old.codec }
{
    match workspace.run_until_refused(&script.edits) {
        Ok(()) => Ok(()),
        Err(stop) => Err(EditFault::Line {
            line: line_of(script, stop.place as usize),
            fault: stop.fault,
        }),
    }
}
