//! Tests of `aec_block`: what its clauses don't say, and worked values.
#![tactic(auto)]

#[cfg(test)]
mod asserts;
#[cfg(test)]
mod choices;
#[cfg(test)]
mod pairs;
#[cfg(test)]
mod reading;
#[cfg(test)]
mod runs;
#[cfg(test)]
mod shared;
