//! Calls that make the command, and the jobs that its words ask for.

use crate::trial::{Trial, try_calls};
use aec_cli::{Job, Usage, command, parse, settings};
use aec_params::Fault;
use clap::{ArgMatches, Command};
use std::alloc::{AllocError, Global};

// Returns the fault of a refusal; `Script` for broken rules of actions, which no row has.
fn refusal_of(usage: Usage) -> Fault {
    match usage {
        Usage::Memory => Fault::Memory,
        Usage::Setting(fault) => fault,
        Usage::Jobs | Usage::Count | Usage::Range => Fault::Script { line: 0 },
    }
}

#[derive(Drop)]
struct Commands<'a> {
    made: Option<Command<'a>>,
    alloc: Global,
}

impl<'a> Trial for Commands<'a> {
    fn call(&mut self, _number: usize) -> Result<(), Fault> {
        match command(self.alloc) {
            Ok(made) => self.made = Some(made),
            Err(usage) => return Err(refusal_of(usage)),
        }
        Ok(())
    }

    fn show<R: Print>(&self, rt: &R) {
        if let Some(made) = &self.made {
            let _ = print!(rt; " {}", made.get_name());
        }
    }
}

#[derive(Drop)]
struct Jobs<'a> {
    matches: ArgMatches<'a>,
    job: Option<Job>,
    alloc: Global,
}

impl<'a> Trial for Jobs<'a> {
    fn call(&mut self, _number: usize) -> Result<(), Fault> {
        match settings(self.alloc, &self.matches) {
            Ok(job) => self.job = Some(job),
            Err(usage) => return Err(refusal_of(usage)),
        }
        Ok(())
    }

    fn show<R: Print>(&self, rt: &R) {
        if let Some(job) = &self.job {
            let _ = print!(rt; " {:?} of {} into {}", job.action, job.source, job.dest);
        }
    }
}

/// Returns the words after the name of a call, with the program's name before them.
pub fn words_of(alloc: Global, call: &str) -> Result<Vec<String>, AllocError> {
    let mut words = Vec::new(alloc);
    words.push(String::from_str(alloc, "aec")?)?;
    for word in call.split_whitespace().skip(1) {
        words.push(String::from_str(alloc, word)?)?;
    }
    Ok(words)
}

// Names of calls, each with its words.
const JOBS: [&str; 5] = [
    "settings a b",
    "settings -d --count 8 b c",
    "settings --range 2:3 b c",
    "settings --edit script --count 48 b c",
    "settings -n 40 a b",
];

fn try_job<R: Print + Eprint>(rt: &R, alloc: Global, call: &str) -> Result<(), Fault> {
    let words = words_of(alloc, call)?;
    if let Ok(matches) = parse(alloc, words.as_slice()) {
        let mut jobs = Jobs {
            matches,
            job: None,
            alloc,
        };
        try_calls(rt, &[(0, call)], &mut jobs);
    }
    Ok(())
}

/// Makes the command, and the job of each row of the table.
pub fn try_commands<R: Print + Eprint>(rt: &R, alloc: Global) -> Result<(), Fault> {
    let mut commands = Commands { made: None, alloc };
    try_calls(rt, &[(0, "command")], &mut commands);
    for call in JOBS.iter() {
        try_job(rt, alloc, call)?;
    }
    Ok(())
}
