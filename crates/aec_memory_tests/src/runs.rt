//! Whole runs of the program `aec` on files, which are written before each run.

use crate::commands::words_of;
use crate::trial::{Trial, print_bytes, try_calls};
use aec_cli::perform;
use aec_params::Fault;
use std::alloc::{Alloc, Global};
use std::fs;
use std::rt::Files;

// Prints a text, if it isn't empty.
fn print_text<R: Print>(rt: &R, bytes: &[u8]) {
    if let Ok(text) = str::from_utf8(bytes) {
        if !text.is_empty() {
            let _ = print!(rt; " '{}'", text.trim_end());
        }
    }
}

// The words for each run that is still to be made, and of the last run the status, the standard
// output and the line on standard error. Both have room, so that a refused growth cuts no line.
#[derive(Drop)]
struct Runs<'a, F: Files + Alloc<A = Global>> {
    rt: &'a F,
    words: Vec<Vec<String>>,
    status: Option<u8>,
    out: Vec<u8>,
    line: Vec<u8>,
}

impl<'a, F: Files + Alloc<A = Global>> Trial for Runs<'a, F> {
    fn call(&mut self, _number: usize) -> Result<(), Fault> {
        let Some(words) = self.words.pop() else {
            return Ok(());
        };
        self.out.clear();
        self.line.clear();
        let status = perform(
            self.rt,
            self.rt.alloc(),
            words,
            &mut self.out,
            &mut self.line,
        );
        self.status = Some(status);
        if status == 1 && self.line.ends_with(b"out of memory\n") {
            return Err(Fault::Memory);
        }
        Ok(())
    }

    fn show<R: Print>(&self, rt: &R) {
        if let Some(status) = self.status {
            let _ = print!(rt; " status {status},");
        }
        print_text(rt, &self.out);
        print_text(rt, &self.line);
        match fs::read(self.rt, "dest") {
            Ok(bytes) => print_bytes(rt, bytes.as_slice()),
            Err(_) => {
                let _ = print!(rt; " no dest");
            }
        }
    }
}

const RAMP: [u8; 8] = [0, 1, 2, 3, 4, 5, 6, 7];

const RAMP_CODED: [u8; 4] = [0x20, 0x09, 0x24, 0x92];

const RAMP_UNSPLIT: [u8; 4] = [0x40, 0x15, 0x55, 0x80];

const ZEROS: [u8; 6] = [0x00, 0x04, 0x00, 0x10, 0x00, 0x40];

const EIGHT_ZEROS: [u8; 2] = [0x00, 0x08];

// Names of calls, each with its words, the bytes of SOURCE, and the script.
const RUNS: [(&str, &[u8], &str); 7] = [
    ("perform source dest", &RAMP, ""),
    ("perform -d source dest", &RAMP_CODED, ""),
    ("perform --range 2:3 source dest", &RAMP_CODED, ""),
    ("perform --range 6:3 source dest", &RAMP_CODED, ""),
    (
        "perform --edit script source dest",
        &ZEROS,
        "overwrite 20 1",
    ),
    ("perform --edit script source dest", &RAMP_UNSPLIT, ""),
    (
        "perform --edit script source dest",
        &EIGHT_ZEROS,
        "overwrite 0 256",
    ),
];

fn try_run<R: Print + Eprint + Files + Alloc<A = Global>>(
    rt: &R,
    call: &str,
    source: &[u8],
    script: &str,
) -> Result<(), Fault> {
    let alloc = rt.alloc();
    let mut words = Vec::new(alloc);
    words.push(words_of(alloc, call)?)?;
    words.push(words_of(alloc, call)?)?;
    let mut runs = Runs {
        rt,
        words,
        status: None,
        out: Vec::with_capacity(alloc, 256)?,
        line: Vec::with_capacity(alloc, 256)?,
    };
    fs::write(rt, "source", source).map_err(|_| Fault::Write)?;
    fs::write(rt, "script", script).map_err(|_| Fault::Write)?;
    try_calls(rt, &[(0, call)], &mut runs);
    for name in ["source", "script", "dest"] {
        let _ = fs::remove_file(rt, name);
    }
    Ok(())
}

/// Makes the run of each row of the table.
pub fn try_runs<R: Print + Eprint + Files + Alloc<A = Global>>(rt: &R) -> Result<(), Fault> {
    for (call, source, script) in RUNS.iter() {
        try_run(rt, call, source, script)?;
    }
    Ok(())
}
