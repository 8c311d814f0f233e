//! The limits of a run's input.

use std::marker::Model;

/// The greatest number of samples of a stream: `most_samples` of the contracts.
pub const MAX_SAMPLES: u64 = 1 << 32;

/// The greatest number of samples, and of bytes of coded data or of a script.
#[derive(Clone, Copy, Debug, PartialEq, Eq)]
pub struct Limits {
    samples: u64,
    bytes: u64,
}

impl Model for Limits {
    ghost use Rattle.aec_params.specs.Limits.{Caps, AreLimits};

    ghost Value = { Caps };

    ghost view = { λ l. record { samples = l.samples; bytes = l.bytes } };

    ghost invariant = { λ l. AreLimits (record { samples = l.samples; bytes = l.bytes }) };

    ghost inverse = { λ c. record { samples = c.samples; bytes = c.bytes } };
}

impl Limits {
    ghost use Rattle.std.specs.Prelude.{◌≡◌, ◌≤◌, SomeIff};
    ghost use Rattle.aec_params.specs.Limits.{Caps, AreLimits};

    /// Returns limits of these samples and bytes; `None` if there are more than `MAX_SAMPLES`
    /// samples or 2^40 bytes.
    pub fn new(samples: u64, bytes: u64) -> Option<Limits>
        ensures { let caps : Caps = record
            { samples = samples; bytes = bytes } in SomeIff result (AreLimits caps) caps }
    {
        if samples <= MAX_SAMPLES && bytes <= 1 << 40 {
            Some(Limits { samples, bytes })
        } else {
            None
        }
    }

    // bare: it returns a field
    /// Returns the greatest number of samples.
    pub fn samples(&self) -> u64
        ensures value { result ≡ self.now.samples }
        ensures limits { AreLimits self.now }
    {
        self.samples
    }

    // bare: it returns a field
    /// Returns the greatest number of bytes.
    pub fn bytes(&self) -> u64
        ensures value { result ≡ self.now.bytes }
        ensures limits { AreLimits self.now }
    {
        self.bytes
    }
}
