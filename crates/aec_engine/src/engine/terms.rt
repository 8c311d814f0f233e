//! The terms on which coded bits are decoded.

use aec_params::{Limits, Params};

/// How coded bits are decoded: the parameters of their samples, the limits, and the number of
/// samples, or `None` for all.
#[derive(Clone, Copy)]
pub(crate) struct Terms {
    pub(crate) params: Params,
    pub(crate) limits: Limits,
    pub(crate) count: Option<u64>,
}
