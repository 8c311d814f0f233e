//! What a handle can hold: a workspace, a coder or a reader.

ghost use Rattle.std.specs.Prelude.{◌≤◌, vec_capacity};
ghost use Rattle.aec_params.specs.Params.{interval_len};

use crate::held_reader::HeldReader;
use aec_bits::BitBuf;
use aec_edit::Workspace;
use aec_interval::{AecCodec, StreamCoder};

/// A workspace over the coder of intervals.
#[derive(Drop)]
pub struct OpenWorkspace {
    pub workspace: Workspace<AecCodec>,
}

/// A coder, or none once its stream was ended, and the bits of its code that weren't taken yet.
#[derive(Drop)]
pub struct OpenCoder {
    pub coder: Option<StreamCoder>,
    pub bits: BitBuf,
}

/// A reader, and room for the samples of an interval, so that no later call lacks memory for them.
#[derive(Drop)]
pub struct OpenReader {
    pub reader: HeldReader,
    pub samples: Vec<i64>,
    pub ghost has_room: { interval_len reader.place.settings ≤ vec_capacity samples },
}

/// What a handle can hold.
#[derive(Drop)]
pub enum Open {
    Workspace(OpenWorkspace),
    Coder(OpenCoder),
    Reader(OpenReader),
}
