//! Tests of jobs over devices in memory: what no clause of `aec_engine` says of the engines, and
//! worked values.
#![tactic(auto)]

#[cfg(test)]
mod answers;
#[cfg(test)]
mod asserts;
#[cfg(test)]
mod cut_streams;
#[cfg(test)]
mod engines;
#[cfg(test)]
mod limits;
#[cfg(test)]
mod shared;
#[cfg(test)]
mod tables;
#[cfg(test)]
mod widths;
