//! Sources and sinks for which a test sets how much a call moves and when they fail.

ghost use Rattle.std.specs.Prelude.{◌≤◌, length};

use aec_bits::{Sink, Source};
use aec_params::Fault;
use std::alloc::Global;

/// What a source does after its bytes.
#[derive(Clone, Copy)]
pub enum After {
    Ends,
    Fails,
    /// Returns zeros for ever.
    Zeros,
}

/// A source of bytes, at most `step` a call. After them it does what `after` says.
#[derive(Drop)]
pub struct Pieces<'a> {
    rest: &'a [u8],
    step: usize,
    after: After,
    failed: bool,
    // How often `take` was called.
    takes: u64,
}

impl<'a> Pieces<'a> {
    /// Returns a source of these bytes.
    pub fn of(bytes: &'a [u8], step: usize, after: After) -> Pieces<'a> {
        Pieces {
            rest: bytes,
            step,
            after,
            failed: false,
            takes: 0,
        }
    }

    /// Returns how often `take` was called.
    pub fn takes(&self) -> u64 {
        self.takes
    }
}

impl<'a> Source for Pieces<'a> {
    ghost use Rattle.std.specs.Prelude.{None, if◌then◌else◌};

    ghost left = { λ _. None };

    ghost failed = { λ s. if s.failed then 1 else 0 };

    fn take(&mut self, buf: &mut [u8]) -> Result<usize, Fault> {
        self.takes = self.takes.saturating_add(1);
        if self.failed {
            return Err(Fault::Read);
        }
        if self.rest.is_empty() {
            return match self.after {
                After::Ends => Ok(0),
                After::Fails => {
                    self.failed = true;
                    Err(Fault::Read)
                }
                After::Zeros => {
                    buf.fill(0);
                    Ok(buf.len())
                }
            };
        }
        let count = self.step.min(self.rest.len()).min(buf.len());
        let (front, rest) = self.rest.split_at(count);
        buf[..count].copy_from_slice(front);
        self.rest = rest;
        Ok(count)
    }

    fn failures(&self) -> u64 {
        u64::from(self.failed)
    }
}

/// A sink that keeps its bytes. It takes at most `step` bytes a call and `room` in all, and then
/// fails. If it is shut, it fails at `begin`.
#[derive(Drop)]
pub struct Basin {
    pub bytes: Vec<u8>,
    step: usize,
    room: usize,
    shut: bool,
    failed: bool,
    begins: u64,
}

impl Basin {
    /// Returns a sink that takes at most `step` bytes a call, and `room` in all.
    pub fn of(alloc: Global, step: usize, room: usize) -> Basin {
        Basin {
            bytes: Vec::new(alloc),
            step,
            room,
            shut: false,
            failed: false,
            begins: 0,
        }
    }

    /// Returns a sink that fails at `begin`.
    pub fn shut(alloc: Global) -> Basin {
        Basin {
            shut: true,
            ..Basin::of(alloc, 64, 64)
        }
    }
}

impl Sink for Basin {
    ghost use Rattle.std.specs.Prelude.{None, if◌then◌else◌};

    ghost taken = { λ _. None };

    ghost failed = { λ s. if s.failed then 1 else 0 };

    ghost begun = { λ s. s.begins };

    fn begin(&mut self) -> Result<(), Fault> {
        self.begins = self.begins.saturating_add(1);
        if self.failed || self.shut {
            self.failed = true;
            return Err(Fault::Write);
        }
        Ok(())
    }

    fn put(&mut self, piece: &[u8]) -> Result<usize, Fault> {
        if self.failed {
            return Err(Fault::Write);
        }
        let count = self.step.min(self.room).min(piece.len());
        let refused = count == 0 && !piece.is_empty();
        if refused || self.bytes.extend_from_slice(&piece[..count]).is_err() {
            self.failed = true;
            return Err(Fault::Write);
        }
        self.room -= count;
        Ok(count)
    }

    fn failures(&self) -> u64 {
        u64::from(self.failed)
    }

    fn begins(&self) -> u64 {
        self.begins
    }
}

/// A sink that appends its bytes to `bytes`. `mark` is the number of bytes at the last `begin`.
#[derive(Drop)]
pub struct Marked {
    pub bytes: Vec<u8>,
    pub mark: usize,
    failed: bool,
    begins: u64,
    ghost sound: { mark ≤ length bytes.items },
}

impl Marked {
    /// Returns a sink that holds these bytes and was never begun.
    pub fn behind(alloc: Global, bytes: &[u8]) -> Result<Marked, Fault> {
        Ok(Marked {
            bytes: bytes.to_vec(alloc)?,
            mark: 0,
            failed: false,
            begins: 0,
        })
    }
}

impl Sink for Marked {
    ghost use Rattle.std.specs.Prelude.{if◌then◌else◌, Some, take};

    ghost taken = { λ s. Some s.bytes.items };

    ghost failed = { λ s. if s.failed then 1 else 0 };

    ghost begun = { λ s. s.begins };

    ghost mark = { λ s. Some (take s.mark s.bytes.items) };

    fn begin(&mut self) -> Result<(), Fault> {
        self.begins = self.begins.saturating_add(1);
        self.mark = self.bytes.len();
        if self.failed {
            Err(Fault::Write)
        } else {
            Ok(())
        }
    }

    fn put(&mut self, piece: &[u8]) -> Result<usize, Fault> {
        if self.failed {
            return Err(Fault::Write);
        }
        match self.bytes.extend_from_slice(piece) {
            Ok(()) => Ok(piece.len()),
            Err(_error) => {
                self.failed = true;
                Err(Fault::Write)
            }
        }
    }

    fn failures(&self) -> u64 {
        u64::from(self.failed)
    }

    fn begins(&self) -> u64 {
        self.begins
    }
}
