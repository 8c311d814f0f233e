//! What the tests share: runs of an engine.

use aec_bits::{Sink, Source};
use aec_cli::{Action, decode, encode, range};
use aec_engine_tests::devices::{Basin, Pieces};
use aec_params::{Fault, Limits, Params, Settings};
use std::alloc::Global;

/// The settings of a run with no options.
pub(crate) const DEFAULTS: Settings = Settings::USUAL;

/// The outcome of an engine: its result, what it wrote, how often it called `begin`, and how often
/// source and sink failed.
#[derive(Debug, PartialEq, Eq, Drop)]
pub(crate) struct Outcome {
    pub(crate) answer: Result<(), Fault>,
    pub(crate) written: Vec<u8>,
    pub(crate) begins: u64,
    pub(crate) failures: [u64; 2],
}

/// Does an action by its engine, from the source to the sink.
pub(crate) fn engine_into<W: Sink>(
    alloc: Global,
    params: &Params,
    action: &Action,
    limits: Limits,
    source: &mut Pieces<'_>,
    sink: &mut W,
) -> Result<(), Fault> {
    match action {
        Action::Encode => encode(alloc, params, limits, source, sink),
        Action::Decode { count } => decode(alloc, params, limits, *count, source, sink),
        Action::Range { first, len, count } => {
            range(alloc, params, limits, *count, *first, *len, source, sink)
        }
        // No row asks for an edit, which needs a script: `edits` of `aec_engine_tests` tests it.
        Action::Edit { .. } => Err(Fault::Script { line: 0 }),
    }
}

/// Does an action by its engine, and returns the outcome.
pub(crate) fn run_engine(
    alloc: Global,
    params: &Params,
    action: &Action,
    limits: Limits,
    mut source: Pieces<'_>,
    mut sink: Basin,
) -> Outcome {
    let answer = engine_into(alloc, params, action, limits, &mut source, &mut sink);
    let begins = sink.begins();
    let failures = [source.failures(), sink.failures()];
    Outcome {
        answer,
        written: sink.bytes,
        begins,
        failures,
    }
}
