//! The words of the project: parameters, samples as they are stored, edits and refusals.
#![tactic(auto)]

mod edit;
mod fault;
mod judging;
pub mod laws;
mod limits;
mod numbers;
mod params;
mod samples;
mod settings;
mod stored;
mod stored_lists;

pub use edit::Edit;
pub use fault::Fault;
pub use judging::first_bad;
pub use limits::{Limits, MAX_SAMPLES};
pub use params::Params;
pub use samples::Samples;
pub use settings::Settings;
pub use stored::{put_sample, sample_of};
pub use stored_lists::{append_samples, collect_samples, load_samples, put_samples, read_samples};
