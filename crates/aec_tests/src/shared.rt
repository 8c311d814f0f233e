//! What the tests share: jobs, and runs of the program.

use aec_cli::{Job, Usage, command, perform, settings};
use aec_params::Settings;
use std::alloc::{AllocError, Global};
use std::rt::Files;
use std::test::Fail;

/// The settings of a run with no options.
pub(crate) const DEFAULTS: Settings = Settings::USUAL;

/// Returns the job that the words ask for, or why there is none. The first word is the program's
/// name.
pub(crate) fn job_by(alloc: Global, words: &[&str]) -> Result<Result<Job, Usage>, Fail> {
    let command = command(alloc)?;
    let matches = command.try_get_matches_from(words)?;
    Ok(settings(alloc, &matches))
}

/// Returns the same for the words of a text, which don't begin with that name.
pub(crate) fn job_of(alloc: Global, words: &str) -> Result<Result<Job, Usage>, Fail> {
    let mut list = Vec::new(alloc);
    list.push("aec")?;
    for word in words.split_whitespace() {
        list.push(word)?;
    }
    job_by(alloc, list.as_slice())
}

/// Returns the words of a command, with the program's name before them.
pub(crate) fn words_of(alloc: Global, words: &str) -> Result<Vec<String>, AllocError> {
    let mut list = Vec::new(alloc);
    list.push(String::from_str(alloc, "aec")?)?;
    for word in words.split_whitespace() {
        list.push(String::from_str(alloc, word)?)?;
    }
    Ok(list)
}

/// Runs the program. Returns its status, and what it wrote to standard output and to standard
/// error.
pub(crate) fn run_of<F: Files>(
    rt: &F,
    alloc: Global,
    words: &str,
) -> Result<(u8, Vec<u8>, Vec<u8>), AllocError> {
    let words = words_of(alloc, words)?;
    let mut out = Vec::new(alloc);
    let mut err = Vec::new(alloc);
    let status = perform(rt, alloc, words, &mut out, &mut err);
    Ok((status, out, err))
}
