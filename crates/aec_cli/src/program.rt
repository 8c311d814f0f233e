//! One whole run of the program.

ghost use Rattle.std.specs.Prelude.{◌≡◌, ◌≤◌, IfOk, IfErr, ℕ, Bool, List, [], map};
ghost use Rattle.std.specs.String.{string_bytes};
ghost use Rattle.clap.specs.Faults.{fault_of};
ghost use Rattle.clap.specs.Values.{kind_of};
ghost use Rattle.clap.specs.Walk.{Text};
ghost use Rattle.aec_cli.specs.Actions.{HasNoScript, IsAnswerOf, are_enough, program_caps};
ghost use Rattle.aec_cli.specs.Commands.{aec_app};
ghost use Rattle.aec_cli.specs.declared.ending.End.{End as EndOfRun};
ghost use Rattle.aec_cli.specs.Ends.{ConcernsJob, end_of_parse, end_of_run, end_status, EndsByMistake, EndsByWords, HasSynced};
ghost use Rattle.aec_engine.specs.Editing.{LeavesEdited};
ghost use Rattle.aec_engine.specs.Transfers.{Taking, taking_of, Putting, putting_of, Leaves};

use crate::done::Done;
use crate::ending::End;
use crate::failure::Failure;
use crate::files::{DestSink, FileSource};
use crate::job::{Action, Job, settings};
use crate::usage::Usage;
use crate::words::parse;
use aec_bits::{Sink, Source};
use aec_engine::{EditFault, decode, edit, encode, range};
use aec_params::{Fault, Limits, MAX_SAMPLES, Params};
use clap::error::ErrorKind;
use std::alloc::Global;
use std::io::Write;
use std::rt::Files;

/// Runs the program on its words, of which the first is the program's name, and returns the status
/// that it ends with: 0, 1 or 2. A job ends with 0 only if its file is written out. Standard output
/// goes to `out`, standard error to `err`; a fault of either changes nothing.
pub fn perform<F: Files, O: Write, E: Write>(
    rt: &F,
    alloc: Global,
    words: Vec<String>,
    out: &mut O,
    err: &mut E,
) -> u8
    ensures bound { result ≤ 2 }
    ensures ends { let given : List Text = map string_bytes words.items in
        (end : EndOfRun) × (result ≡ end_status end)
        × EndsByMistake (fault_of aec_app given) end
        × (fault_of aec_app given ≡ [] → EndsByWords given end) }
{
    run_words(rt, alloc, words, out, err).status()
}

/// Does what `perform` does, and returns how the program ends.
fn run_words<F: Files, O: Write, E: Write>(
    rt: &F,
    alloc: Global,
    words: Vec<String>,
    out: &mut O,
    err: &mut E,
) -> End
    ensures bound { end_status result ≤ 2 }
    ensures mistakes { EndsByMistake (fault_of aec_app (map string_bytes words.items)) result }
    ensures refusals { let given : List Text = map string_bytes words.items in
        fault_of aec_app given ≡ [] → EndsByWords given result }
{
    let matches = match parse(alloc, words.as_slice()) {
        Ok(matches) => matches,
        Err(error) => return unparsed(&error, out, err),
    };
    let job = match settings(alloc, &matches) {
        Ok(job) => job,
        Err(usage) => return failed(Failure::Usage(usage), err),
    };
    ended(run(rt, alloc, job), err)
}

/// The limits of the program: `MAX_SAMPLES` samples, and 2^35 bytes of coded data.
fn limits() -> Limits
    ensures { result ≡ program_caps }
{
    match Limits::new(MAX_SAMPLES, 1 << 35) {
        Some(limits) => limits,
        None => unreachable!(),
    }
}

/// Does an action without a script on a source, within the limits of the program, and writes its
/// result to a sink.
fn act<R: Source, W: Sink>(
    alloc: Global,
    params: &Params,
    action: Action,
    source: &mut R,
    sink: &mut W,
) -> Result<(), Fault>
    requires { HasNoScript action }
    ensures { let took : Taking = taking_of R.left R.failed source.old source.new in
        let put : Putting = putting_of W.taken W.begun W.mark W.failed sink.old sink.new in
        let enough : List ℕ → Bool = are_enough action params.now program_caps in
        Leaves (IsAnswerOf action params.now program_caps) took enough put result }
{
    match action {
        Action::Encode => encode(alloc, params, limits(), source, sink),
        Action::Decode { count } => decode(alloc, params, limits(), count, source, sink),
        Action::Range { first, len, count } => {
            range(alloc, params, limits(), count, first, len, source, sink)
        }
        Action::Edit { .. } => unreachable!(),
    }
}

/// Edits the samples of a source by the script of another, within the limits of the program.
fn act_by_script<Q: Source, R: Source, W: Sink>(
    alloc: Global,
    params: &Params,
    count: Option<u64>,
    script_source: &mut Q,
    source: &mut R,
    sink: &mut W,
) -> Result<(), EditFault>
    ensures { let read : Taking = taking_of Q.left Q.failed script_source.old script_source.new in
        let took : Taking = taking_of R.left R.failed source.old source.new in
        let put : Putting = putting_of W.taken W.begun W.mark W.failed sink.old sink.new in
        LeavesEdited params.now program_caps count read took put result }
{
    edit(alloc, params, limits(), count, script_source, source, sink)
}

/// Does a job with its files, within the limits of the program. The job is done once its DEST was
/// begun and finished without a fault.
fn run<F: Files>(rt: &F, alloc: Global, job: Job) -> Result<Done, Failure>
    ensures done { IfOk result (λ done. HasSynced done) }
    ensures fault { IfErr result (λ failure. ConcernsJob failure) }
{
    let Job {
        params,
        action,
        source,
        dest,
    } = job;
    let mut source = FileSource::new(rt, source);
    let mut sink = DestSink::new(rt, dest);
    match action {
        Action::Edit { script, count } => {
            let mut script_source = FileSource::new(rt, script);
            act_by_script(
                alloc,
                &params,
                count,
                &mut script_source,
                &mut source,
                &mut sink,
            )
            .map_err(Failure::Edit)?;
        }
        action => act(alloc, &params, action, &mut source, &mut sink).map_err(Failure::Fault)?,
    }
    sink.finish().map_err(Failure::Fault)
}

/// Returns how the program ends, by the result of a run. Prints a failure.
fn ended<E: Write>(run: Result<Done, Failure>, err: &mut E) -> End
    ensures { result ≡ end_of_run run }
{
    match run {
        Ok(done) => End::Done(done),
        Err(failure) => failed(failure, err),
    }
}

/// Prints the line of a failure, and returns this end of the program.
fn failed<E: Write>(failure: Failure, err: &mut E) -> End
    ensures { result ≡ End.Failed failure }
{
    let _ = writeln!(err, "aec: {failure}");
    End::Failed(failure)
}

/// Prints what a parse returned instead of matches: help, the version, a mistake in the words, or
/// the lack of memory. Returns this end of the program.
fn unparsed<O: Write, E: Write>(error: &clap::Error, out: &mut O, err: &mut E) -> End
    ensures { result ≡ end_of_parse (kind_of error.now) }
{
    if error.kind() == ErrorKind::OutOfMemory {
        return failed(Failure::Usage(Usage::Memory), err);
    }
    if error.use_stderr() {
        let _ = write!(err, "{error}");
        End::Unstarted { status: 2 }
    } else {
        let _ = write!(out, "{error}");
        End::Unstarted { status: 0 }
    }
}
