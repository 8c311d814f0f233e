//! The options that C passes.

ghost use Rattle.std.specs.Prelude.{◌≡◌};
ghost use Rattle.aec_c.specs.Calls.{settings_of, count_of};

use aec_params::Settings;

/// The greatest number of coded bytes.
pub(crate) const MAX_CODED_BYTES: u64 = 1 << 40;

/// The parameters of a stream as C passes them: `Settings`, field by field.
#[repr(C)]
#[derive(Clone, Copy)]
pub struct Options {
    pub bits: u32,
    pub block_size: u32,
    pub interval: u32,
    pub signed: bool,
    pub msb_first: bool,
    pub three_byte: bool,
    pub preprocess: bool,
    pub pad: bool,
    pub restricted: bool,
    pub even_blocks: bool,
}

/// Returns the options as settings.
pub(crate) fn settings_of(options: &Options) -> Settings
    ensures { result ≡ settings_of options.now }
{
    Settings {
        bits: options.bits,
        block_size: options.block_size,
        interval: options.interval,
        signed: options.signed,
        msb_first: options.msb_first,
        three_byte: options.three_byte,
        preprocess: options.preprocess,
        pad: options.pad,
        restricted: options.restricted,
        even_blocks: options.even_blocks,
    }
}

/// Returns a number as a count, and 2^64 - 1 as none.
pub(crate) fn count_of(count: u64) -> Option<u64>
    ensures { result ≡ count_of count }
{
    if count == u64::MAX { None } else { Some(count) }
}
