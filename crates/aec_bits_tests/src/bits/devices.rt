//! Sources and sinks that fail.

use crate::asserts::{same, same_at};
use aec_bits::{BitBuf, ReadSource, Sink, Source, WriteSink};
use aec_params::Fault;
use std::io;
use std::io::{ErrorKind, Read, Write};
use std::test::Fail;

/// A writer that takes nothing of its first piece with bytes, and would then take all bytes.
#[derive(Drop)]
struct Full {
    is_full: bool,
}

impl Write for Full {
    fn write(&mut self, buf: &[u8]) -> io::Result<usize> {
        if self.is_full && !buf.is_empty() {
            self.is_full = false;
            return Ok(0);
        }
        Ok(buf.len())
    }

    fn flush(&mut self) -> io::Result<()> {
        Ok(())
    }
}

/// A writer that takes one byte a call. It is interrupted once, after `left` bytes, and would then
/// go on.
#[derive(Drop)]
struct Slow {
    bytes: Vec<u8>,
    left: usize,
}

impl Write for Slow {
    fn write(&mut self, buf: &[u8]) -> io::Result<usize> {
        match buf.first() {
            None => Ok(0),
            Some(byte) => {
                if self.left == 0 || self.bytes.push(*byte).is_err() {
                    self.left = usize::MAX;
                    return Err(io::Error::from(ErrorKind::Interrupted));
                }
                self.left -= 1;
                Ok(1)
            }
        }
    }

    fn flush(&mut self) -> io::Result<()> {
        Ok(())
    }
}

/// A reader that returns one byte a call. It is interrupted once, after `stop` bytes, and would
/// then go on.
#[derive(Drop)]
struct Torn {
    given: u8,
    stop: u8,
}

impl Read for Torn {
    fn read(&mut self, buf: &mut [u8]) -> io::Result<usize> {
        if buf.is_empty() {
            return Ok(0);
        }
        if self.given == self.stop {
            self.stop = u8::MAX;
            return Err(io::Error::from(ErrorKind::Interrupted));
        }
        buf[0] = self.given;
        self.given = self.given.wrapping_add(1);
        Ok(1)
    }
}

// The writer fails after each number of the four bytes, or not at all; it isn't asked again.
#[test]
fn writes_a_front_and_fails(rt: HostRuntime) -> Result<(), Fail> {
    let buf = BitBuf::from_bytes(rt.alloc(), &[1, 2, 3, 4])?;
    for left in 0..5usize {
        let mut sink = WriteSink::new(Slow {
            bytes: Vec::new(rt.alloc()),
            left,
        });
        let wanted = if left < 4 { Err(Fault::Write) } else { Ok(()) };
        same_at(&rt, buf.write_to(&mut sink), wanted, &left);
        if left < 4 {
            same_at(&rt, buf.write_to(&mut sink), wanted, &left);
        }
        same_at(&rt, sink.failures(), u64::from(left < 4), &left);
        same_at(&rt, sink.begin(), wanted, &left);
        same_at(&rt, sink.begins(), 1, &left);
        let slow = sink.into_inner();
        same_at(&rt, slow.bytes.as_slice(), &[1, 2, 3, 4][..left], &left);
    }
    Ok(())
}

#[test]
fn a_writer_that_takes_nothing_fails(rt: HostRuntime) {
    let mut sink = WriteSink::new(Full { is_full: true });
    let rows: [(&[u8], Result<usize, Fault>, u64); 4] = [
        (&[], Ok(0), 0),
        (&[7], Err(Fault::Write), 1),
        (&[7], Err(Fault::Write), 1),
        (&[], Err(Fault::Write), 1),
    ];
    for (piece, wanted, failures) in rows {
        same(&rt, sink.put(piece), wanted);
        same(&rt, sink.failures(), failures);
    }
}

// The reader fails after 0 to 3 of its bytes 0, 1 and 2; it isn't asked again.
#[test]
fn a_source_fails_for_good(rt: HostRuntime) {
    for stop in 0..4u8 {
        let mut source = ReadSource::new(Torn { given: 0, stop });
        for i in 0..6u8 {
            let mut buf = [0xFFu8; 3];
            let is_given = i < stop;
            let wanted = if is_given { Ok(1) } else { Err(Fault::Read) };
            same_at(&rt, source.take(&mut buf), wanted, &i);
            same_at(&rt, buf[0], if is_given { i } else { 0xFF }, &i);
            same_at(&rt, source.failures(), u64::from(!is_given), &i);
        }
        same(&rt, source.take(&mut []), Err(Fault::Read));
    }
}
