//! Repeats calls of a file that a signal interrupts.

ghost use Rattle.std.specs.Prelude.{◌≡◌, ◌≢◌, ◌↔◌, IfErr, IsTrue, MatchResult, Some, None};
ghost use Rattle.std.specs.Io.{ReadsAtMost, WritesAtMost};
ghost use Rattle.std.specs.Io.KnownBytes.{Keeps, ReadConsumes, WriteAppends};
ghost use Rattle.std.specs.IoError.{error_kind};

use std::fs::OpenFile;
use std::io;
use std::io::{Error, ErrorKind, Read, Write};

/// Returns whether a call failed because a signal interrupted it.
fn is_interrupted(error: &Error) -> bool
    ensures { IsTrue result ↔ (error_kind error.now ≡ ErrorKind.Interrupted) }
{
    error.kind() == ErrorKind::Interrupted
}

/// Returns the kind of a call's error; none if the call succeeded.
fn error_of(answer: io::Result<()>) -> Option<ErrorKind>
    ensures { MatchResult answer (λ _. result ≡ None) (λ e. result ≡ Some (error_kind e)) }
{
    match answer {
        Ok(()) => None,
        Err(error) => Some(error.kind()),
    }
}

/// Returns the error for a call that was interrupted `u64::MAX` times.
fn too_many_tries() -> Error
    ensures { error_kind result ≡ ErrorKind.TimedOut }
{
    Error::from(ErrorKind::TimedOut)
}

/// A file that repeats each call while a signal interrupts it, at most `u64::MAX` times. A call
/// returns what the last try did; after too many tries it fails with `TimedOut`.
#[derive(Drop)]
pub(crate) struct Retrying<T> {
    file: T,
}

impl<T> Retrying<T> {
    ghost use Rattle.std.specs.Prelude.{◌≡◌};

    /// Returns the file whose calls are repeated.
    pub(crate) fn new(file: T) -> Retrying<T>
        ensures { result.file ≡ file }
    {
        Retrying { file }
    }
}

/// The result of a sync's last try: the kind of its error, if it failed. Only `Retrying::sync`
/// makes one.
#[derive(Debug, PartialEq, Eq, Drop)]
pub(crate) struct SyncAnswer {
    error: Option<ErrorKind>,
}

impl SyncAnswer {
    ghost use Rattle.std.specs.Prelude.{◌≡◌};

    /// Returns the kind of the error, if the sync failed.
    pub(crate) fn error(&self) -> Option<ErrorKind>
        ensures { result ≡ self.now.error }
    {
        self.error
    }
}

impl<T: OpenFile> Retrying<T> {
    /// Makes the system write out what was written to the file.
    pub(crate) fn sync(&self) -> SyncAnswer
        ensures again { result.error ≢ Some ErrorKind.Interrupted }
    {
        for _ in 0..u64::MAX {
            let error = error_of(self.file.sync_all());
            if error != Some(ErrorKind::Interrupted) {
                return SyncAnswer { error };
            }
        }
        SyncAnswer {
            error: Some(ErrorKind::TimedOut),
        }
    }
}

impl<T: Read> Read for Retrying<T> {
    ghost remaining = { λ s. T.remaining s.file };

    fn read(&mut self, buf: &mut [u8]) -> io::Result<usize>
        ensures bound { ReadsAtMost result buf.new }
        ensures bytes { ReadConsumes (T.remaining self.old.file) (T.remaining self.new.file) result
            buf.new }
        ensures again { IfErr result (λ e. error_kind e ≢ ErrorKind.Interrupted) }
    {
        read_again(&mut self.file, buf)
    }
}

impl<T: Write> Write for Retrying<T> {
    ghost contents = { λ s. T.contents s.file };

    fn write(&mut self, buf: &[u8]) -> io::Result<usize>
        ensures bound { WritesAtMost result buf.now }
        ensures bytes { WriteAppends (T.contents self.old.file) (T.contents self.new.file) result
            buf.now }
        ensures again { IfErr result (λ e. error_kind e ≢ ErrorKind.Interrupted) }
    {
        write_again(&mut self.file, buf)
    }

    fn flush(&mut self) -> io::Result<()>
        ensures bytes { Keeps (T.contents self.old.file) (T.contents self.new.file) }
        ensures again { IfErr result (λ e. error_kind e ≢ ErrorKind.Interrupted) }
    {
        flush_again(&mut self.file)
    }
}

/// Reads once, and again while a signal interrupts it.
fn read_again<R: Read>(reader: &mut R, buf: &mut [u8]) -> io::Result<usize>
    ensures bound { ReadsAtMost result buf.new }
    ensures bytes { ReadConsumes (R.remaining reader.old) (R.remaining reader.new) result buf.new }
    ensures again { IfErr result (λ e. error_kind e ≢ ErrorKind.Interrupted) }
{
    for _ in 0..u64::MAX {
        match reader.read(buf) {
            Err(error) if is_interrupted(&error) => {}
            answer => return answer,
        }
    }
    Err(too_many_tries())
}

/// Writes once, and again while a signal interrupts it.
fn write_again<W: Write>(writer: &mut W, buf: &[u8]) -> io::Result<usize>
    ensures bound { WritesAtMost result buf.now }
    ensures bytes { WriteAppends (W.contents writer.old) (W.contents writer.new) result buf.now }
    ensures again { IfErr result (λ e. error_kind e ≢ ErrorKind.Interrupted) }
{
    for _ in 0..u64::MAX {
        match writer.write(buf) {
            Err(error) if is_interrupted(&error) => {}
            answer => return answer,
        }
    }
    Err(too_many_tries())
}

/// Flushes once, and again while a signal interrupts it.
fn flush_again<W: Write>(writer: &mut W) -> io::Result<()>
    ensures bytes { Keeps (W.contents writer.old) (W.contents writer.new) }
    ensures again { IfErr result (λ e. error_kind e ≢ ErrorKind.Interrupted) }
{
    for _ in 0..u64::MAX {
        match writer.flush() {
            Err(error) if is_interrupted(&error) => {}
            answer => return answer,
        }
    }
    Err(too_many_tries())
}
