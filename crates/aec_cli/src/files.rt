//! Files as devices: a source whose first call opens the file, and a sink whose `begin` creates it.

ghost use Rattle.std.specs.Prelude.{◌≡◌, ◌≤◌, ◌<◌, true, false, [], Some, Ok, IfOk, IfErr, IsOk, IsErr, length};
ghost use Rattle.std.specs.Io.KnownBytes.{ReadConsumes, WriteAppends};
ghost use Rattle.aec_params.specs.declared.fault.Fault.TheVariants.{Read as ReadFault, Write as WriteFault};
ghost use Rattle.aec_bits.specs.Devices.{FailsOnce};
ghost use Rattle.aec_cli.specs.Ends.{HasSynced};
ghost use Rattle.aec_cli.specs.Openings.{is_closed, is_open, is_unopened, is_unopened_reading, IsTried, IsTriedReading};

use crate::done::{Done, write_out};
use crate::retrying::Retrying;
use aec_bits::{ReadSource, Sink, Source, WriteSink};
use aec_params::Fault;
use std::fs;
use std::rt::Files;

/// The state of a source's file. The file is closed once its end was read.
#[derive(Drop)]
enum Reading<T: Drop> {
    Unopened,
    Open(T),
    Closed,
    Failed,
}

/// The state of a sink's file.
#[derive(Drop)]
enum Opening<T: Drop> {
    Unopened,
    Open(T),
    Failed,
}

/// Opens a file: then it is open and has not failed, or it can't be opened.
fn opened<F: Files>(rt: &F, path: &str) -> Reading<ReadSource<Retrying<F::File>>>
    ensures { IsTriedReading ⟦<ReadSource<Retrying<F::File>> as Source>⟧.failed result }
{
    match fs::open(rt, path) {
        Ok(file) => Reading::Open(ReadSource::new(Retrying::new(file))),
        Err(_) => Reading::Failed,
    }
}

/// Creates a file, or empties it if it exists: then it is open and has not failed, or it can't be
/// created.
fn created<F: Files>(rt: &F, path: &str) -> Opening<WriteSink<Retrying<F::File>>>
    ensures { IsTried ⟦<WriteSink<Retrying<F::File>> as Sink>⟧.failed result }
{
    match fs::create(rt, path) {
        Ok(file) => Opening::Open(WriteSink::new(Retrying::new(file))),
        Err(_) => Opening::Failed,
    }
}

/// The bytes of a file. The first `take` opens the file, and the `take` that finds its end closes
/// it: from then on each `take` returns 0. The source fails if the file can't be opened or a read
/// fails; a read that a signal interrupts is repeated. Contracts see how often the source has
/// failed, 0 or 1.
#[derive(Drop)]
pub struct FileSource<'a, F: Files> {
    rt: &'a F,
    path: String,
    file: Reading<ReadSource<Retrying<F::File>>>,
}

impl<'a, F: Files> FileSource<'a, F> {
    /// Returns a source of the file at `path`, which is not opened yet. The source keeps `rt`.
    pub fn new(rt: &'a F, path: String) -> FileSource<'a, F>
        ensures unopened { is_unopened_reading result.file ≡ true }
        ensures failed { ⟦<FileSource<'a, F> as Source>⟧.failed result ≡ 0 }
    {
        FileSource {
            rt,
            path,
            file: Reading::Unopened,
        }
    }
}

impl<'a, F: Files> Source for FileSource<'a, F> {
    ghost use Rattle.aec_cli.specs.Openings.{bytes_unread, failures_read};

    ghost left = { λ s. bytes_unread ⟦<ReadSource<Retrying<F::File>> as Source>⟧.left s.file };

    ghost failed = { λ s. failures_read ⟦<ReadSource<Retrying<F::File>> as Source>⟧.failed s.file };

    fn take(&mut self, buf: &mut [u8]) -> Result<usize, Fault>
        ensures bound { IfOk result (λ k. k ≤ length buf.new) }
        ensures bytes { ReadConsumes (⟦<FileSource<'a, F> as Source>⟧.left self.old)
            (⟦<FileSource<'a, F> as Source>⟧.left self.new) result buf.new }
        ensures closed { IfOk result (λ k. k ≡ 0 → 0 < length buf.new
            → (is_closed self.new.file ≡ true)
            × (⟦<FileSource<'a, F> as Source>⟧.left self.new ≡ Some [])) }
        ensures ended { is_closed self.old.file ≡ true
            → (result ≡ Ok 0) × (is_closed self.new.file ≡ true) }
        ensures failure { FailsOnce ReadFault (⟦<FileSource<'a, F> as Source>⟧.failed self.old)
            (⟦<FileSource<'a, F> as Source>⟧.failed self.new) result }
    {
        if let Reading::Unopened = &self.file {
            self.file = opened(self.rt, self.path.as_str());
        }
        match &mut self.file {
            Reading::Open(file) => match file.take(buf) {
                Ok(0) if !buf.is_empty() => {
                    self.file = Reading::Closed;
                    Ok(0)
                }
                answer => answer,
            },
            Reading::Closed => Ok(0),
            _ => Err(Fault::Read),
        }
    }

    fn failures(&self) -> u64 {
        match &self.file {
            Reading::Unopened | Reading::Closed => 0,
            Reading::Open(file) => file.failures(),
            Reading::Failed => 1,
        }
    }
}

/// A file that is written. `begin` creates it, or empties an existing one. The sink fails if `put`
/// is called before `begin`, at any error, and if a write takes nothing of a piece. Writes, and the
/// sync at the end, are repeated if a signal interrupts them. Contracts see how often the sink has
/// failed, 0 or 1, and how often it was begun.
#[derive(Drop)]
pub struct DestSink<'a, F: Files> {
    rt: &'a F,
    path: String,
    file: Opening<WriteSink<Retrying<F::File>>>,
    begins: u64,
    ghost unbegun: { begins ≡ 0 → is_open file ≡ false },
    ghost begun: { 0 < begins → is_unopened file ≡ false },
}

impl<'a, F: Files> DestSink<'a, F> {
    // bare: it only fills in the fields of a new value
    /// Returns a sink of the file at `path`, which is not created yet. The sink keeps `rt`.
    pub fn new(rt: &'a F, path: String) -> DestSink<'a, F>
        ensures failed { ⟦<DestSink<'a, F> as Sink>⟧.failed result ≡ 0 }
        ensures begun { ⟦<DestSink<'a, F> as Sink>⟧.begun result ≡ 0 }
    {
        DestSink {
            rt,
            path,
            file: Opening::Unopened,
            begins: 0,
        }
    }

    /// Makes the system write out what was written to the file, and ends the sink. Fails with
    /// `Write` if that fails, or if the sink has failed. An error that says that the file can't be
    /// synced, like a pipe or a terminal, is no failure. A sink that neither was begun nor has
    /// failed is done without a file.
    pub fn finish(self) -> Result<Done, Fault>
        ensures failed { ⟦<DestSink<'a, F> as Sink>⟧.failed self.entry ≡ 1 → IsErr result }
        ensures unbegun { ⟦<DestSink<'a, F> as Sink>⟧.begun self.entry ≡ 0
            → ⟦<DestSink<'a, F> as Sink>⟧.failed self.entry ≡ 0
            → IsOk result }
        ensures synced { 0 < ⟦<DestSink<'a, F> as Sink>⟧.begun self.entry
            → IfOk result (λ done. HasSynced done) }
        ensures fault { IfErr result (λ e. e ≡ WriteFault) }
    {
        let DestSink { file, .. } = self;
        match file {
            Opening::Unopened => Ok(Done::without_a_file()),
            Opening::Open(file) if file.failures() == 0 => {
                Ok(Done::of_a_file(write_out(&file.into_inner())?))
            }
            _ => Err(Fault::Write),
        }
    }
}

impl<'a, F: Files> Sink for DestSink<'a, F> {
    ghost use Rattle.aec_cli.specs.Openings.{bytes_known, failures_of};

    ghost taken = { λ s. bytes_known ⟦<WriteSink<Retrying<F::File>> as Sink>⟧.taken s.file };

    ghost failed = { λ s. failures_of ⟦<WriteSink<Retrying<F::File>> as Sink>⟧.failed s.file };

    ghost begun = { λ s. s.begins };

    fn begin(&mut self) -> Result<(), Fault> {
        self.begins = self.begins.saturating_add(1);
        if let Opening::Unopened = &self.file {
            self.file = created(self.rt, self.path.as_str());
        }
        match &mut self.file {
            Opening::Open(file) => file.begin(),
            _ => Err(Fault::Write),
        }
    }

    fn put(&mut self, piece: &[u8]) -> Result<usize, Fault>
        ensures bound { IfOk result (λ k. k ≤ length piece.now) }
        ensures progress { IfOk result (λ k. 0 < length piece.now → 0 < k) }
        ensures bytes { WriteAppends (⟦<DestSink<'a, F> as Sink>⟧.taken self.old)
            (⟦<DestSink<'a, F> as Sink>⟧.taken self.new) result piece.now }
        ensures count { ⟦<DestSink<'a, F> as Sink>⟧.begun self.new
            ≡ ⟦<DestSink<'a, F> as Sink>⟧.begun self.old }
        ensures order { ⟦<DestSink<'a, F> as Sink>⟧.mark self.new
            ≡ ⟦<DestSink<'a, F> as Sink>⟧.mark self.old }
        ensures failure { FailsOnce WriteFault (⟦<DestSink<'a, F> as Sink>⟧.failed self.old)
            (⟦<DestSink<'a, F> as Sink>⟧.failed self.new) result }
        ensures unbegun { ⟦<DestSink<'a, F> as Sink>⟧.begun self.old ≡ 0 → IsErr result }
    {
        match &mut self.file {
            Opening::Open(file) => file.put(piece),
            _ => {
                self.file = Opening::Failed;
                Err(Fault::Write)
            }
        }
    }

    fn failures(&self) -> u64 {
        match &self.file {
            Opening::Unopened => 0,
            Opening::Open(file) => file.failures(),
            Opening::Failed => 1,
        }
    }

    fn begins(&self) -> u64 {
        self.begins
    }
}
