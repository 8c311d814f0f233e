//! Damaged and hostile streams, read by `decode_all` and by a plain reader that was written from
//! docs/FORMAT.md without the library's code.
#![tactic(auto)]

#[cfg(test)]
mod asserts;
#[cfg(test)]
mod compared;
#[cfg(test)]
mod damaged;
#[cfg(test)]
mod judged;
#[cfg(test)]
mod plain_bits;
#[cfg(test)]
mod plain_reader;
#[cfg(test)]
mod plain_sets;
