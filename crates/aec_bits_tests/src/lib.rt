//! Tests of `aec_params` and `aec_bits`: what their clauses don't say, and worked values.
#![tactic(auto)]

#[cfg(test)]
mod asserts;
#[cfg(test)]
mod bits;
#[cfg(test)]
mod params;
#[cfg(test)]
mod settings;
