//! Files that take all bytes but can't be synced, and files whose calls are interrupted.

use crate::asserts::{same, same_at};
use crate::shared::run_of;
use std::alloc::{Alloc, Allocator, Global};
use std::cell::Cell;
use std::fs::{Files, Metadata, OpenFile, OpenOptions};
use std::io::{ErrorKind, Read, Seek, SeekFrom, Write};
use std::process::Abort;
use std::test::Fail;
use std::{fs, io};

// The files of another runtime. If there is a `kind`, each sync fails with it. If `interrupted`,
// every second read, write or sync of a file is interrupted, from the first one on.
#[derive(Drop)]
struct Unsynced<'a, F: Files> {
    rt: &'a F,
    kind: Option<ErrorKind>,
    interrupted: bool,
}

#[derive(Drop)]
struct UnsyncedFile<T: Drop> {
    file: T,
    kind: Option<ErrorKind>,
    interrupted: bool,
    // Whether the next call is interrupted.
    next: Cell<bool>,
}

impl<T: Drop> UnsyncedFile<T> {
    fn signal(&self) -> io::Result<()> {
        let now = self.next.get();
        self.next.set(self.interrupted && !now);
        if now {
            return Err(io::Error::from(ErrorKind::Interrupted));
        }
        Ok(())
    }

    fn sync(&self) -> io::Result<()> {
        self.signal()?;
        match self.kind {
            Some(kind) => Err(io::Error::from(kind)),
            None => Ok(()),
        }
    }
}

impl<T: Read + Drop> Read for UnsyncedFile<T> {
    fn read(&mut self, buf: &mut [u8]) -> io::Result<usize> {
        self.signal()?;
        self.file.read(buf)
    }
}

impl<T: Write + Drop> Write for UnsyncedFile<T> {
    fn write(&mut self, buf: &[u8]) -> io::Result<usize> {
        self.signal()?;
        self.file.write(buf)
    }

    fn flush(&mut self) -> io::Result<()> {
        self.file.flush()
    }
}

impl<T: Seek + Drop> Seek for UnsyncedFile<T> {
    fn seek(&mut self, to: SeekFrom) -> io::Result<u64> {
        self.file.seek(to)
    }
}

impl<T: OpenFile + Drop> OpenFile for UnsyncedFile<T> {
    fn metadata(&self) -> io::Result<Metadata> {
        self.file.metadata()
    }

    fn set_len(&self, size: u64) -> io::Result<()> {
        self.file.set_len(size)
    }

    fn sync_all(&self) -> io::Result<()> {
        self.sync()
    }

    fn sync_data(&self) -> io::Result<()> {
        self.sync()
    }
}

impl<'a, F: Files> Files for Unsynced<'a, F> {
    type File = UnsyncedFile<F::File>;

    type Dir = F::Dir;

    fn open_file(&self, how: &OpenOptions, path: &str) -> io::Result<UnsyncedFile<F::File>> {
        let file = self.rt.open_file(how, path)?;
        Ok(UnsyncedFile {
            file,
            kind: self.kind,
            interrupted: self.interrupted,
            next: Cell::new(self.interrupted),
        })
    }

    fn open_dir(&self, path: &str) -> io::Result<F::Dir> {
        self.rt.open_dir(path)
    }

    fn metadata(&self, path: &str) -> io::Result<Metadata> {
        self.rt.metadata(path)
    }

    fn symlink_metadata(&self, path: &str) -> io::Result<Metadata> {
        self.rt.symlink_metadata(path)
    }

    fn copy(&self, from: &str, to: &str) -> io::Result<u64> {
        self.rt.copy(from, to)
    }

    fn rename(&self, from: &str, to: &str) -> io::Result<()> {
        self.rt.rename(from, to)
    }

    fn remove_file(&self, path: &str) -> io::Result<()> {
        self.rt.remove_file(path)
    }

    fn create_dir(&self, path: &str) -> io::Result<()> {
        self.rt.create_dir(path)
    }

    fn remove_dir(&self, path: &str) -> io::Result<()> {
        self.rt.remove_dir(path)
    }

    fn remove_dir_all<B: Allocator>(&self, alloc: B, path: &str) -> io::Result<()> {
        self.rt.remove_dir_all(alloc, path)
    }
}

// Checks the status and the text of a run whose syncs end like this, and that DEST holds the coded
// ramp.
fn ends_so<R: Abort + Files + Alloc<A = Global>>(
    rt: &R,
    kind: Option<ErrorKind>,
    interrupted: bool,
    expected: u8,
    text: &str,
) -> Result<(), Fail> {
    let unsynced = Unsynced {
        rt,
        kind,
        interrupted,
    };
    let words = "unsynced.in unsynced.out";
    let (status, _out, err) = run_of(&unsynced, rt.alloc(), words)?;
    same_at(rt, status, expected, &kind);
    same_at(rt, err.as_slice(), text.as_bytes(), &kind);
    let coded = fs::read(rt, "unsynced.out")?;
    same(rt, coded.as_slice(), b"\x20\x09\x24\x92".as_slice());
    fs::remove_file(rt, "unsynced.out")?;
    Ok(())
}

// How syncs end, and the status and the text of the run.
const ENDS: [(Option<ErrorKind>, u8, &str); 8] = [
    (None, 0, ""),
    // The errors of a full disk, of a quota, of a broken disk (EIO), of a read-only disk, and of a
    // network disk that is gone.
    (Some(ErrorKind::StorageFull), 1, "aec: write failed\n"),
    (Some(ErrorKind::QuotaExceeded), 1, "aec: write failed\n"),
    (Some(ErrorKind::Uncategorized), 1, "aec: write failed\n"),
    (
        Some(ErrorKind::ReadOnlyFilesystem),
        1,
        "aec: write failed\n",
    ),
    (
        Some(ErrorKind::StaleNetworkFileHandle),
        1,
        "aec: write failed\n",
    ),
    // The errors of files that have nothing to sync.
    (Some(ErrorKind::InvalidInput), 0, ""),
    (Some(ErrorKind::Unsupported), 0, ""),
];

fn all_end_so<R: Abort + Files + Alloc<A = Global>>(rt: &R, interrupted: bool) -> Result<(), Fail> {
    let ramp = b"\x00\x01\x02\x03\x04\x05\x06\x07";
    fs::write(rt, "unsynced.in", ramp.as_slice())?;
    for (kind, expected, text) in ENDS {
        ends_so(rt, kind, interrupted, expected, text)?;
    }
    fs::remove_file(rt, "unsynced.in")?;
    Ok(())
}

#[test]
fn a_dest_that_is_not_synced_is_a_failure(rt: HostRuntime) -> Result<(), Fail> {
    all_end_so(&rt, false)
}

#[test]
fn interrupted_calls_are_made_again(rt: HostRuntime) -> Result<(), Fail> {
    all_end_so(&rt, true)
}
