//! A program that edits a coded stream in memory: it replaces one of forty-eight zeros. It prints
//! the result of a refused edit and of one that is applied, the bytes of the stream, where its
//! intervals begin, some samples that are read back, and how many intervals were coded and decoded
//! in all.
#![tactic(auto)]

use aec_bits::WriteSink;
use aec_edit::{Outcome, Workspace};
use aec_interval::AecCodec;
use aec_params::{Edit, Fault, Params, Samples, Settings};
use std::alloc::Global;
use std::process::ExitCode;

fn main(rt: HostRuntime) -> ExitCode {
    match edit_and_print(&rt, rt.alloc()) {
        Ok(()) => ExitCode::SUCCESS,
        Err(fault) => {
            let _ = eprintln!(rt; "aec_example: {fault}");
            ExitCode::FAILURE
        }
    }
}

fn edit_and_print<R: Print>(rt: &R, alloc: Global) -> Result<(), Fault> {
    let mut outcomes = Vec::new(alloc);
    let mut workspace = edited_zeros(alloc, &mut outcomes)?;
    print_outcomes(rt, &outcomes);
    print_stream(rt, &stream(alloc, &workspace)?);
    print_intervals(rt, &workspace);
    print_samples(rt, &workspace.range(alloc, 19, 3)?);
    let (coded, decoded) = (workspace.calls(), workspace.reads());
    let _ = println!(rt; "intervals coded: {coded}, decoded: {decoded}");
    Ok(())
}

/// Returns a workspace of 48 zeros, with the one at place 20 changed. An edit past their end is
/// refused, and the edit after it is applied all the same.
fn edited_zeros(alloc: Global, outcomes: &mut Vec<Outcome>) -> Result<Workspace<AecCodec>, Fault> {
    let params = Params::new(Settings::USUAL)?;
    let mut workspace = Workspace::new(alloc, AecCodec::new(alloc, params), 1 << 32);
    workspace.apply(&Edit::Append {
        values: Samples::new(vec![in alloc; 0i64; 48]?),
    })?;
    let past = Edit::Truncate { count: 49 };
    let one = Edit::Overwrite {
        first: 20,
        values: Samples::new(vec![in alloc; 1i64; 1]?),
    };
    workspace.run(&[past, one], outcomes)?;
    Ok(workspace)
}

/// Returns the bytes of a workspace's stream.
fn stream(alloc: Global, workspace: &Workspace<AecCodec>) -> Result<Vec<u8>, Fault> {
    let mut sink = WriteSink::new(Vec::new(alloc));
    workspace.write_to(&mut sink)?;
    Ok(sink.into_inner())
}

fn print_outcomes<R: Print>(rt: &R, outcomes: &[Outcome]) {
    for outcome in outcomes {
        let _ = match outcome {
            Outcome::Done { coded } => println!(rt; "made, intervals coded: {coded}"),
            Outcome::Refused { fault } => println!(rt; "refused: {fault}"),
        };
    }
}

fn print_stream<R: Print>(rt: &R, stream: &[u8]) {
    let _ = print!(rt; "stream:");
    for byte in stream {
        let _ = print!(rt; " {byte:02X}");
    }
    let _ = rt.println("");
}

/// Prints how many bits there are, and the bit where each interval begins.
fn print_intervals<R: Print>(rt: &R, workspace: &Workspace<AecCodec>) {
    let (bits, intervals) = (workspace.stream_bits(), workspace.intervals());
    let _ = print!(rt; "{bits} bits, in {intervals} intervals from bits");
    for i in 0..intervals {
        if let Some(bit) = workspace.offset(i) {
            let _ = print!(rt; " {bit}");
        }
    }
    let _ = rt.println("");
}

fn print_samples<R: Print>(rt: &R, samples: &[i64]) {
    let _ = print!(rt; "samples 19 to 21:");
    for sample in samples {
        let _ = print!(rt; " {sample}");
    }
    let _ = rt.println("");
}
