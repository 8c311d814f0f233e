//! Settings that differ from the usual ones in a few fields.

use aec_params::Settings;

pub(crate) const fn width(bits: u32, signed: bool) -> Settings {
    stored(bits, signed, false, false)
}

/// Returns settings of samples that are stored in this way.
pub(crate) const fn stored(bits: u32, signed: bool, three_byte: bool, msb_first: bool) -> Settings {
    Settings {
        bits,
        signed,
        three_byte,
        msb_first,
        ..Settings::USUAL
    }
}
