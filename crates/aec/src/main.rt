//! The program `aec`.
#![tactic(auto)]

use aec_cli::{StartFault, fill_if_closed, perform, process_words};
use std::process::ExitCode;

/// Runs the program on the words of its process, or prints why it can't.
fn main(rt: HostRuntime) -> ExitCode {
    ExitCode::from(match start(&rt) {
        Ok(words) => perform(&rt, rt.alloc(), words, &mut rt.stdout(), &mut rt.stderr()),
        Err(fault) => {
            let _ = eprintln!(rt; "aec: {fault}");
            fault.status()
        }
    })
}

/// Returns the words of the command, once no standard stream is closed.
fn start(rt: &HostRuntime) -> Result<Vec<String>, StartFault> {
    fill_if_closed(rt, &rt.stdin())?;
    fill_if_closed(rt, &rt.stdout())?;
    fill_if_closed(rt, &rt.stderr())?;
    process_words(rt)
}
