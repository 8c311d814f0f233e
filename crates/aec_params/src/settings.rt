//! The settings that a user requests, before anything is checked.

/// The requested parameters of a stream. `Params::new` checks whether the format allows them.
#[derive(Clone, Copy, Debug, PartialEq, Eq)]
pub struct Settings {
    /// Bits per sample, n.
    pub bits: u32,
    /// Samples in a block, J: 8, 16, 32 or 64, or with `even_blocks` any even number from 8 to 64.
    pub block_size: u32,
    /// Blocks in a reference sample interval, r.
    pub interval: u32,
    /// Whether samples are signed.
    pub signed: bool,
    /// Whether a stored sample has its most significant byte first.
    pub msb_first: bool,
    /// Whether samples of 17 to 24 bits are stored in three bytes.
    pub three_byte: bool,
    /// Whether the preprocessor runs: unit-delay prediction and mapping.
    pub preprocess: bool,
    /// Whether each interval is filled up to a byte boundary.
    pub pad: bool,
    /// Whether the restricted set of code options is used.
    pub restricted: bool,
    /// Whether the block size may be any even number from 8 to 64. Any other size is then refused
    /// with `EvenBlockSize` instead of `BlockSize`. This changes nothing else.
    pub even_blocks: bool,
}

impl Settings {
    /// The command's defaults: 8 bits, unsigned, blocks of 8, intervals of 2 blocks, preprocessed.
    pub const USUAL: Settings = Settings {
        bits: 8,
        block_size: 8,
        interval: 2,
        signed: false,
        msb_first: false,
        three_byte: false,
        preprocess: true,
        pad: false,
        restricted: false,
        even_blocks: false,
    };
}

impl Default for Settings {
    ghost use Rattle.std.specs.Prelude.{◌≡◌};
    ghost use Rattle.aec_params.specs.Params.{usual_settings};

    /// Returns the usual settings.
    fn default() -> Settings
        ensures { result ≡ usual_settings }
    {
        Settings::USUAL
    }
}
