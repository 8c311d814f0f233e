//! What the process does before a run: it opens standard streams that are closed, and reads its
//! words.

ghost use Rattle.std.specs.Prelude.{◌≡◌, IfErr};
ghost use Rattle.aec_cli.specs.declared.start.StartFault.TheVariants.{Stream};
ghost use Rattle.aec_cli.specs.Statuses.{ConcernsWords, start_status};

use std::alloc::{Alloc, Global};
use std::env;
use std::fs::OpenOptions;
use std::io::ErrorKind;
use std::os::fd::{AsFd, IntoRawFd};
use std::rt::{Env, Files};
use thiserror::Error;

/// Why a process begins no run. Its text is printed on a line after `aec: `.
#[derive(Clone, Copy, Debug, PartialEq, Eq, Error)]
pub enum StartFault {
    /// A standard stream is closed, and nothing can be opened in its place.
    #[error("a standard stream is closed and /dev/null can't be opened")]
    Stream,
    /// A word is no UTF-8 text.
    #[error("words must be UTF-8 text")]
    Words,
    /// An allocation failed.
    #[error("out of memory")]
    Memory,
}

impl StartFault {
    /// Returns the status that the program ends with: 2 for words that are no text, else 1.
    pub fn status(&self) -> u8
        ensures { result ≡ start_status self.now }
    {
        match self {
            StartFault::Words => 2,
            StartFault::Stream | StartFault::Memory => 1,
        }
    }
}

/// The error number of a call with a descriptor that isn't open (EBADF).
const BAD_DESCRIPTOR: i32 = 9;

/// Returns whether the descriptor of a stream isn't open. A descriptor that is open but can't be
/// duplicated, since no number is free, isn't closed.
fn is_closed<S: AsFd>(stream: &S) -> bool {
    match stream.as_fd().try_clone_to_owned() {
        Ok(_) => false,
        Err(error) => error.raw_os_error() == Some(BAD_DESCRIPTOR),
    }
}

/// If a standard stream is closed, opens `/dev/null` in its place for reading and writing, until
/// the process ends. The system assigns a file the least free number. So call this for the three
/// streams in the order of their numbers, before any file is opened: then no file gets the number
/// of a stream.
pub fn fill_if_closed<F: Files, S: AsFd>(rt: &F, stream: &S) -> Result<(), StartFault>
where
    F::File: IntoRawFd,
    ensures { IfErr result (λ fault. fault ≡ Stream) }
{
    if is_closed(stream) {
        let mut both = OpenOptions::new();
        both.read(true).write(true);
        let null = both.open(rt, "/dev/null").map_err(|_| StartFault::Stream)?;
        let _ = null.into_raw_fd();
    }
    Ok(())
}

/// Returns the words of the process, the program's name first. Fails with `Words` if one, even the
/// name of a file, is no UTF-8 text.
pub fn process_words<R: Env + Alloc<A = Global>>(rt: &R) -> Result<Vec<String>, StartFault>
    ensures { IfErr result (λ fault. ConcernsWords fault) }
{
    let words = env::args(rt).map_err(|error| match error.kind() {
        ErrorKind::OutOfMemory => StartFault::Memory,
        _ => StartFault::Words,
    })?;
    words.collect(rt.alloc()).map_err(|_| StartFault::Memory)
}
