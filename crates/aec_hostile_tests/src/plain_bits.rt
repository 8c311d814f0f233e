//! A list of bits that are taken one by one.

use aec_params::Fault;

/// A place in a list of bits.
#[derive(Drop)]
pub(crate) struct PlainBits<'a> {
    bits: &'a [bool],
    place: usize,
    /// The place where the current coded data set begins. A fault names this place.
    start: usize,
}

impl<'a> PlainBits<'a> {
    /// Returns the first place of a list.
    pub(crate) fn new(bits: &'a [bool]) -> PlainBits<'a> {
        PlainBits {
            bits,
            place: 0,
            start: 0,
        }
    }

    /// Makes this place the beginning of a coded data set.
    pub(crate) fn begin(&mut self) {
        self.start = self.place;
    }

    /// Returns the place where the current coded data set begins.
    pub(crate) fn start(&self) -> u64 {
        self.start as u64
    }

    /// Returns whether all bits that are left are zeros.
    pub(crate) fn rest_is_zero(&self) -> bool {
        !self.bits.iter().skip(self.place).any(|bit| *bit)
    }

    /// Goes to the next byte boundary, or to the end of the list if that comes first.
    pub(crate) fn skip_to_byte(&mut self) {
        let boundary = self.place.saturating_add(7) / 8 * 8;
        self.place = boundary.min(self.bits.len());
    }

    /// Takes a bit. Fails with `Truncated` at the end of the list.
    fn bit(&mut self) -> Result<bool, Fault> {
        match self.bits.get(self.place) {
            Some(bit) => {
                self.place += 1;
                Ok(*bit)
            }
            None => Err(Fault::Truncated { bit: self.start() }),
        }
    }

    /// Takes a number of `width` bits, at most 32, the most significant bit first.
    pub(crate) fn number(&mut self, width: u32) -> Result<u32, Fault> {
        let mut number = 0u32;
        for _ in 0..width {
            number = number << 1 | u32::from(self.bit()?);
        }
        Ok(number)
    }

    /// Takes a fundamental sequence. Returns the number of its zeros.
    pub(crate) fn fundamental(&mut self) -> Result<u64, Fault> {
        let mut zeros = 0u64;
        // The list has fewer bits than this loop has rounds.
        for _ in 0..=self.bits.len() {
            if self.bit()? {
                break;
            }
            zeros = zeros.saturating_add(1);
        }
        Ok(zeros)
    }
}
