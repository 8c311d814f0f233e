//! Calls of workspaces over `AecCodec`, and of `script`.

use crate::trial::{Trial, print_bytes, print_samples, try_calls};
use aec_bits::WriteSink;
use aec_edit::{Outcome, Workspace};
use aec_engine::script;
use aec_interval::AecCodec;
use aec_params::{Edit, Fault, Params, Settings};
use std::alloc::Global;

fn print_work<R: Print>(rt: &R, alloc: Global, work: &Workspace<AecCodec>) {
    let mut sink = WriteSink::new(Vec::new(alloc));
    if work.write_to(&mut sink).is_ok() {
        print_bytes(rt, sink.into_inner().as_slice());
    }
    let _ = print!(rt;
        " ({} bits of {} samples), offsets",
        work.stream_bits(),
        work.count()
    );
    for i in 0..work.intervals() {
        if let Some(start) = work.offset(i) {
            let _ = print!(rt; " {start}");
        }
    }
    let _ = print!(rt; ", calls {}, reads {},", work.calls(), work.reads());
}

// A workspace, edits of it, how many intervals the last edit coded, and the samples at places 19 to
// 21.
#[derive(Drop)]
struct Edits {
    work: Workspace<AecCodec>,
    edits: Vec<Edit>,
    coded: u64,
    part: Vec<i64>,
    alloc: Global,
}

impl Edits {
    fn new(alloc: Global, limit: u32, text: &str) -> Result<Edits, Fault> {
        let codec = AecCodec::new(alloc, Params::new(Settings::USUAL)?);
        Ok(Edits {
            work: Workspace::new(alloc, codec, u64::from(limit)),
            edits: script(alloc, text.as_bytes())?.edits,
            coded: 0,
            part: Vec::new(alloc),
            alloc,
        })
    }
}

impl Trial for Edits {
    fn call(&mut self, number: usize) -> Result<(), Fault> {
        if number == RESERVE {
            return self.work.reserve(1000, 9);
        }
        if number == ALL {
            self.coded = coded_at_once(&mut self.work, &self.edits)?;
            return Ok(());
        }
        match self.edits.get(number) {
            Some(edit) => self.coded = self.work.apply(edit)?,
            None => self.part = self.work.range(self.alloc, 19, 3)?,
        }
        Ok(())
    }

    fn show<R: Print>(&self, rt: &R) {
        print_work(rt, self.alloc, &self.work);
        let _ = print!(rt; " coded {},", self.coded);
        print_samples(rt, &self.part);
    }
}

/// Applies edits as one.
fn coded_at_once(work: &mut Workspace<AecCodec>, edits: &[Edit]) -> Result<u64, Fault> {
    match work.apply_all(edits) {
        Ok(coded) => Ok(coded),
        Err(stop) => Err(stop.fault),
    }
}

// An empty workspace whose codec has one call left, and a run of edits.
#[derive(Drop)]
struct Runs {
    work: Workspace<AecCodec>,
    edits: Vec<Edit>,
    outcomes: Vec<Outcome>,
    params: Params,
    alloc: Global,
}

fn nearly_spent(alloc: Global, params: Params) -> Workspace<AecCodec> {
    let codec = AecCodec::with_calls(alloc, params, u64::MAX - 1);
    Workspace::new(alloc, codec, 1 << 32)
}

impl Runs {
    fn new(alloc: Global, params: Params, edits: Vec<Edit>) -> Runs {
        Runs {
            work: nearly_spent(alloc, params),
            edits,
            outcomes: Vec::new(alloc),
            params,
            alloc,
        }
    }
}

impl Trial for Runs {
    fn call(&mut self, _number: usize) -> Result<(), Fault> {
        self.work = nearly_spent(self.alloc, self.params);
        self.outcomes = Vec::new(self.alloc);
        self.work.run(&self.edits, &mut self.outcomes)
    }

    fn show<R: Print>(&self, rt: &R) {
        for outcome in &self.outcomes {
            let _ = match outcome {
                Outcome::Done { coded } => print!(rt; " coded {coded};"),
                Outcome::Refused { fault } => print!(rt; " {fault};"),
            };
        }
        print_work(rt, self.alloc, &self.work);
    }
}

// A script, and the edits and lines that were read from it.
#[derive(Drop)]
struct Scripts<'a> {
    text: &'a str,
    edits: Vec<Edit>,
    lines: Vec<u64>,
    alloc: Global,
}

impl<'a> Trial for Scripts<'a> {
    fn call(&mut self, _number: usize) -> Result<(), Fault> {
        let script = script(self.alloc, self.text.as_bytes())?;
        self.edits = script.edits;
        self.lines = script.lines;
        Ok(())
    }

    fn show<R: Print>(&self, rt: &R) {
        for (edit, line) in self.edits.iter().zip(&self.lines) {
            let _ = match edit {
                Edit::Overwrite { first, values } => {
                    let _ = print!(rt; " {line}: overwrite {first}");
                    print_samples(rt, values.as_slice());
                }
                Edit::Append { values } => {
                    let _ = print!(rt; " {line}: append");
                    print_samples(rt, values.as_slice());
                }
                Edit::Truncate { count } => {
                    let _ = print!(rt; " {line}: truncate {count}");
                }
                Edit::Insert { first, values } => {
                    let _ = print!(rt; " {line}: insert {first}");
                    print_samples(rt, values.as_slice());
                }
                Edit::Remove { first, len } => {
                    let _ = print!(rt; " {line}: remove {first} {len}");
                }
            };
        }
    }
}

// Forty-eight zeros, and edits of them.
const ZEROS: &str = "\
append 0 0 0 0 0 0 0 0 0 0 0 0 0 0 0 0 0 0 0 0 0 0 0 0 0 0 0 0 0 0 0 0 0 0 0 0 0 0 0 0 0 0 0 0 0 0 0 0
overwrite 47 0 0
overwrite 0 256
overwrite 48
append 0
overwrite 20 1";

// Forty-eight zeros, and sixteen more between them; one zero, so that four intervals are coded; one
// zero too many; then removals of sixteen samples, of three, and of the first interval.
const MOVED_ZEROS: &str = "\
append 0 0 0 0 0 0 0 0 0 0 0 0 0 0 0 0 0 0 0 0 0 0 0 0 0 0 0 0 0 0 0 0 0 0 0 0 0 0 0 0 0 0 0 0 0 0 0 0
insert 16 0 0 0 0 0 0 0 0 0 0 0 0 0 0 0 0
insert 20 0
insert 0 0
remove 8 16
remove 20 3
remove 0 16";

const SEVENS: &str = "append 7 7 7 7 7\nappend 7 7 7 8\ntruncate 5";

// Forty-eight zeros, of which one becomes a one. The same again appends zeros, and opens an
// interval.
const ZEROS_AT_ONCE: &str = "\
append 0 0 0 0 0 0 0 0 0 0 0 0 0 0 0 0 0 0 0 0 0 0 0 0 0 0 0 0 0 0 0 0 0 0 0 0 0 0 0 0 0 0 0 0 0 0 0 0
overwrite 20 1";

const SPENT: &str = "\
append 0 0 0 0 0 0 0 0 0 0 0 0 0 0 0 0 0
append 0 0 0 0 0 0 0 0 0 0 0 0 0 0 0 0
overwrite 0 1
truncate 0";

const APPLY: &str = "Workspace::apply";

const RESERVE: usize = 100;

const ALL: usize = 101;

const AT_ONCE: [(usize, &str); 2] = [(ALL, "Workspace::apply_all"), (ALL, "Workspace::apply_all")];

const RESERVED: [(usize, &str); 3] = [
    (RESERVE, "Workspace::reserve"),
    (0, APPLY),
    (RESERVE, "Workspace::reserve"),
];

const EDITED: [(usize, &str); 7] = [
    (0, APPLY),
    (1, APPLY),
    (2, APPLY),
    (3, APPLY),
    (4, APPLY),
    (5, APPLY),
    (6, APPLY),
];

const ZEROS_EDITED: [(usize, &str); 7] = [
    (0, APPLY),
    (1, APPLY),
    (2, APPLY),
    (3, APPLY),
    (4, APPLY),
    (5, APPLY),
    (6, "Workspace::range"),
];

const LINES: &str = "# p\noverwrite 20 1 -2\nappend\ntruncate 5";

const MOVING_LINES: &str = "insert 3 1 -2\nremove 4 5\ninsert 0";

/// Applies edits one by one and as one, reads a range, runs a list of edits, and reads scripts.
pub fn try_edits<R: Print + Eprint>(rt: &R, alloc: Global) -> Result<(), Fault> {
    try_calls(rt, &ZEROS_EDITED, &mut Edits::new(alloc, 48, ZEROS)?);
    try_calls(rt, &EDITED[..3], &mut Edits::new(alloc, 48, SEVENS)?);
    try_calls(rt, &EDITED, &mut Edits::new(alloc, 65, MOVED_ZEROS)?);
    try_calls(rt, &RESERVED, &mut Edits::new(alloc, 48, SEVENS)?);
    try_calls(rt, &AT_ONCE, &mut Edits::new(alloc, 96, ZEROS_AT_ONCE)?);
    try_runs(rt, alloc)?;
    try_script(rt, alloc, LINES);
    try_script(rt, alloc, MOVING_LINES);
    Ok(())
}

fn try_script<R: Print + Eprint>(rt: &R, alloc: Global, text: &str) {
    let mut scripts = Scripts {
        text,
        edits: Vec::new(alloc),
        lines: Vec::new(alloc),
        alloc,
    };
    try_calls(rt, &[(0, "script")], &mut scripts);
}

fn try_runs<R: Print + Eprint>(rt: &R, alloc: Global) -> Result<(), Fault> {
    let edits = script(alloc, SPENT.as_bytes())?.edits;
    let mut runs = Runs::new(alloc, Params::new(Settings::USUAL)?, edits);
    try_calls(
        rt,
        &[(0, "Workspace::run"), (0, "Workspace::run")],
        &mut runs,
    );
    Ok(())
}
