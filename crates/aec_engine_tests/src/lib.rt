//! Tests of the engines: what the clauses of `aec_engine` don't say, and worked values.
//! `aec_job_tests` uses its devices too.
#![tactic(auto)]

#[cfg(test)]
mod asserts;
#[cfg(test)]
mod bytes;
#[cfg(test)]
mod counted_edits;
pub mod devices;
#[cfg(test)]
mod edited_streams;
#[cfg(test)]
mod edits;
#[cfg(test)]
mod endless;
#[cfg(test)]
mod failing_edits;
#[cfg(test)]
mod offsets;
#[cfg(test)]
mod scripts;
