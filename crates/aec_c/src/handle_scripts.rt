//! Applies scripts to the workspace that a handle holds.

ghost use Rattle.std.specs.Prelude.{◌≡◌, false, None, Some, IfOk, IfErr};
ghost use Rattle.aec_engine.specs.Transfers.{input_of};
ghost use Rattle.aec_engine.specs.Output.{intake_refusal};
ghost use Rattle.aec_engine.specs.Scripts.{listing_of};
ghost use Rattle.aec_engine.specs.Editing.{script_refusal};
ghost use Rattle.aec_c.specs.Calls.{most};
ghost use Rattle.aec_c.specs.HandleCalls.{not_open};
ghost use Rattle.aec_c.specs.Kinds.{value_in};
ghost use Rattle.aec_c.specs.ScriptCalls.{AppliesEdits, AppliesScript, CarriesOut, RefusesScript, all_applied, edits_reply, only_reply, refusal_on};

use crate::kinds::{Open, OpenWorkspace};
use crate::options::MAX_CODED_BYTES;
use crate::reply::{answered, not_open};
use crate::stream_edits::{EditReply, refused_edit};
use aec_edit::Stop;
use aec_engine::{EditFault, Script, script as read_script};
use aec_params::Fault;
use std::alloc::Global;

/// Fails with `StreamTooLong` if a script has more bytes than this library reads.
fn check_length(script: &[u8]) -> Result<(), Fault>
    ensures ok { IfOk result (λ _. intake_refusal most.bytes (input_of script.now false) ≡ None) }
    ensures refuses { IfErr result
        (λ fault. intake_refusal most.bytes (input_of script.now false) ≡ Some fault) }
{
    if script.len() as u64 > MAX_CODED_BYTES {
        return Err(Fault::StreamTooLong {
            limit: MAX_CODED_BYTES,
        });
    }
    Ok(())
}

/// Returns the edits of a script. Fails with `StreamTooLong`; then with `Script` at the first line
/// that is no edit, or with `Memory`, if an edit comes before that line.
fn edits_in(alloc: Global, script: &[u8]) -> Result<Script, Fault>
    ensures ok { IfOk result
        (λ _. script_refusal most.bytes (input_of script.now false) ≡ None) }
    ensures edits { IfOk result (λ read. read.edits.items ≡ (listing_of script.now).edits) }
    ensures lines { IfOk result (λ read. read.lines.items ≡ (listing_of script.now).lines) }
    ensures refuses { IfErr result (λ fault. RefusesScript script.now fault) }
{
    check_length(script)?;
    read_script(alloc, script)
}

/// Returns the refusal of edits with the line of the edit at its place, if there is one.
fn refusal_on(lines: &[u64], stop: Stop) -> EditFault
    ensures { result ≡ refusal_on lines.now stop }
{
    match lines.get(stop.place as usize) {
        Some(line) => EditFault::Line {
            line: *line,
            fault: stop.fault,
        },
        None => EditFault::Plain(stop.fault),
    }
}

/// Returns the reply if all edits were applied.
fn all_applied(coded: u64, samples: u64) -> EditReply
    ensures { result ≡ all_applied coded samples }
{
    EditReply {
        reply: answered(coded),
        line: 0,
        samples,
    }
}

/// Returns the reply to edits on these lines of a script. `samples` is their number afterwards.
fn edits_reply(lines: &[u64], answer: Result<u64, Stop>, samples: u64) -> EditReply
    ensures { result ≡ edits_reply lines.now answer samples }
{
    match answer {
        Ok(coded) => all_applied(coded, samples),
        Err(stop) => refused_edit(refusal_on(lines, stop)),
    }
}

/// Applies all edits of a script that was read, or none of them.
fn apply_edits(work: &mut OpenWorkspace, read: &Script) -> EditReply
    ensures { AppliesEdits read.now.edits.items read.now.lines.items work.old work.new result }
{
    let answer = work.workspace.apply_all(&read.edits);
    let samples = work.workspace.count();
    edits_reply(&read.lines, answer, samples)
}

/// Reads a script, and applies all its edits or none of them.
fn carry_out(alloc: Global, work: &mut OpenWorkspace, script: &[u8]) -> EditReply
    ensures { CarriesOut script.now work.old work.new result }
{
    match edits_in(alloc, script) {
        Ok(read) => apply_edits(work, &read),
        Err(fault) => refused_edit(EditFault::Plain(fault)),
    }
}

/// Returns the reply if a handle holds no workspace.
fn not_held() -> EditReply
    ensures { result ≡ only_reply not_open }
{
    EditReply {
        reply: not_open(),
        line: 0,
        samples: 0,
    }
}

/// Applies all edits of a script, or none of them, to the workspace that a handle holds.
pub(crate) fn apply_script(
    alloc: Global,
    inside: &mut Option<Box<Open>>,
    script: &[u8],
) -> EditReply
    ensures { AppliesScript script.now (value_in inside.old) (value_in inside.new) result }
{
    match inside {
        Some(held) => match &mut **held {
            Open::Workspace(work) => carry_out(alloc, work, script),
            _ => not_held(),
        },
        None => not_held(),
    }
}
