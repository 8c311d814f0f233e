//! A list of samples that an edit carries.

use std::marker::Model;

/// Samples in order. Contracts see their list.
#[derive(Debug, Drop)]
pub struct Samples {
    items: Vec<i64>,
}

impl Model for Samples {
    ghost use Rattle.std.specs.Prelude.{List, ℤ};

    ghost Value = { List ℤ };

    ghost view = { λ s. s.items.items };
}

impl Samples {
    ghost use Rattle.std.specs.Prelude.{◌≡◌};

    /// Returns the samples of a vector. Takes the vector over without a copy.
    pub fn new(items: Vec<i64>) -> Samples
        ensures { result ≡ items.items }
    {
        Samples { items }
    }

    /// Returns the samples as a slice.
    pub fn as_slice(&self) -> &[i64]
        ensures { result.now ≡ self.now }
    {
        self.items.as_slice()
    }

    /// Returns the samples as the vector that holds them, without a copy.
    pub fn into_vec(self) -> Vec<i64>
        ensures { result.items ≡ self }
    {
        let Samples { items } = self;
        items
    }
}
