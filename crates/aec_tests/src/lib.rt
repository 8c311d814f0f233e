//! Tests of the command on words and files: what no clause of `aec_cli` says of its runs, and
//! worked values.
#![tactic(auto)]

#[cfg(test)]
mod asserts;
#[cfg(test)]
mod coded_files;
#[cfg(test)]
mod edited_files;
#[cfg(test)]
mod files;
#[cfg(test)]
mod large_inputs;
#[cfg(test)]
mod ranges;
#[cfg(test)]
mod refused_files;
#[cfg(test)]
mod runs;
#[cfg(test)]
mod shared;
#[cfg(test)]
mod tables;
#[cfg(test)]
mod unsynced_files;
#[cfg(test)]
mod words;
