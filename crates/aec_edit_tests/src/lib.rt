//! Tests of workspaces: what no clause of `aec_edit` says, and worked values. Most cases are lines
//! of text tables.
#![tactic(auto)]

#[cfg(test)]
mod asserts;
#[cfg(test)]
mod batches;
#[cfg(test)]
mod many_intervals;
#[cfg(test)]
mod mixed_edits;
#[cfg(test)]
mod octets;
#[cfg(test)]
mod plain_lists;
#[cfg(test)]
mod steps;
#[cfg(test)]
mod tables;
#[cfg(test)]
mod workspaces;
