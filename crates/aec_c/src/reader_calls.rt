//! The calls from C on a reader that returns samples interval by interval.

ghost use Rattle.std.specs.Prelude.{◌≡◌, None};
ghost use Rattle.aec_c.specs.Calls.{settings_of, count_of};
ghost use Rattle.aec_c.specs.Kinds.{reader_in};
ghost use Rattle.aec_c.specs.HandleCalls.{OnHandle};
ghost use Rattle.aec_c.specs.Readers.{OpensReader, PutsNext, GoesTo};

use crate::handle::Handle;
use crate::options::Options;
use crate::readers::{go_to, open_reader, put_next};
use crate::reply::Reply;
use std::alloc::Global;

/// Opens a reader at the first sample of a stream, of which it keeps a copy. Replies how many bytes
/// the stored samples of a whole interval take. On success what the handle held is freed; on an
/// error the handle is unchanged.
#[unsafe(no_mangle)]
pub extern "C" fn aecp_reader_open(
    alloc: Global,
    options: &Options,
    count: u64,
    coded: &[u8],
    reader: &mut Handle,
    reply: &mut Reply,
) -> u32
    ensures opens { OpensReader (settings_of options.now) (count_of count) coded.now
        reader.old.value reader.new.value reply.new }
    ensures number { result ≡ reply.new.fault }
{
    *reply = open_reader(alloc, options, count, coded, reader);
    reply.fault
}

/// Writes the stored samples of the next interval to a buffer, and goes on after them. Replies how
/// many bytes they take; 0 if all samples were read.
#[unsafe(no_mangle)]
pub extern "C" fn aecp_reader_next(
    alloc: Global,
    reader: &mut Handle,
    out: &mut [u8],
    reply: &mut Reply,
) -> u32
    ensures puts { PutsNext reader.old.value reader.new.value out.old out.new reply.new }
    ensures number { result ≡ reply.new.fault }
{
    let mut inside = reader.take(alloc);
    *reply = put_next(alloc, &mut inside, out);
    reader.put(inside);
    reply.fault
}

/// Goes to where an interval begins. Replies how many samples lie before it.
#[unsafe(no_mangle)]
pub extern "C" fn aecp_reader_go_to(
    alloc: Global,
    reader: &mut Handle,
    interval: u64,
    reply: &mut Reply,
) -> u32
    ensures goes { OnHandle reader_in (GoesTo interval) reader.old.value reader.new.value
        reply.new }
    ensures number { result ≡ reply.new.fault }
{
    let mut inside = reader.take(alloc);
    *reply = go_to(alloc, &mut inside, interval);
    reader.put(inside);
    reply.fault
}

// bare: a wrong body would show no more than that of `aecp_close`
/// Frees what a handle holds.
#[unsafe(no_mangle)]
pub extern "C" fn aecp_reader_close(alloc: Global, reader: &mut Handle)
    ensures { reader.new.value ≡ None }
{
    let _freed = reader.take(alloc);
}
