//! Settings that differ from the usual ones in a few fields.

use aec_params::Settings;

pub(crate) const USUAL: Settings = Settings::USUAL;

pub(crate) const PADDED: Settings = Settings {
    pad: true,
    ..Settings::USUAL
};

/// Blocks of ten samples, each an interval.
pub(crate) const TEN: Settings = Settings {
    block_size: 10,
    even_blocks: true,
    interval: 1,
    ..Settings::USUAL
};

pub(crate) const WITH_64: Settings = Settings {
    interval: 64,
    ..Settings::USUAL
};

pub(crate) const WITH_128: Settings = Settings {
    interval: 128,
    ..Settings::USUAL
};

pub(crate) const WITH_4096: Settings = Settings {
    interval: 4096,
    ..Settings::USUAL
};

pub(crate) const PLAIN: Settings = Settings {
    preprocess: false,
    ..Settings::USUAL
};

pub(crate) const PLAIN_8: Settings = Settings {
    preprocess: false,
    interval: 8,
    ..Settings::USUAL
};

pub(crate) const PLAIN_64: Settings = Settings {
    preprocess: false,
    interval: 64,
    ..Settings::USUAL
};

/// Unsigned samples of 5, 12 and 16 bits.
pub(crate) const FIVE_BITS: Settings = Settings {
    bits: 5,
    ..Settings::USUAL
};

pub(crate) const TWELVE_BITS: Settings = Settings {
    bits: 12,
    ..Settings::USUAL
};

pub(crate) const SIXTEEN_BITS: Settings = Settings {
    bits: 16,
    ..Settings::USUAL
};
