//! Tests of parameters, stored samples, limits, edits and the texts of faults.

mod faults;
mod parameters;
mod stored;
