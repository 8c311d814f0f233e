//! The bytes of an incomplete sample.

use std::marker::Model;

/// At most four bytes; contracts see their list.
#[derive(Debug, Drop)]
pub(crate) struct Rest {
    bytes: [u8; 4],
    len: usize,
}

impl Model for Rest {
    ghost use Rattle.std.specs.Prelude.{ℕ, ◌≤◌, List, take};

    ghost Value = { List ℕ };

    ghost view = { λ r. take r.len r.bytes };

    ghost invariant = { λ r. r.len ≤ 4 };
}

impl Rest {
    ghost use Rattle.std.specs.Prelude.{◌≡◌, ◌+◌, ◌≤◌, [], ◌++◌, length};

    /// Returns no bytes.
    pub(crate) fn new() -> Rest
        ensures { result ≡ [] }
    {
        Rest {
            bytes: [0; 4],
            len: 0,
        }
    }

    /// Returns the number of bytes.
    pub(crate) fn len(&self) -> usize
        ensures { result ≡ length self.now }
    {
        self.len
    }

    /// Returns the bytes.
    pub(crate) fn as_slice(&self) -> &[u8]
        ensures { result.now ≡ self.now }
    {
        &self.bytes[..self.len]
    }

    /// Appends bytes.
    pub(crate) fn extend(&mut self, more: &[u8])
        requires { length self.old + length more.now ≤ 4 }
        ensures { self.new ≡ self.old ++ more.now }
    {
        let end = self.len + more.len();
        self.bytes[self.len..end].copy_from_slice(more);
        self.len = end;
    }
}
