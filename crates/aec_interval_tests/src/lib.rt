//! Tests of intervals and streams: what no clause of `aec_interval` promises, and worked
//! values.
#![tactic(auto)]

#[cfg(test)]
mod asserts;
#[cfg(test)]
mod codecs;
#[cfg(test)]
mod feeding;
#[cfg(test)]
mod offsets;
#[cfg(test)]
mod reading;
#[cfg(test)]
mod settings;
#[cfg(test)]
mod shared;
#[cfg(test)]
mod streams;
