//! The calls from C on a workspace that a handle holds.

ghost use Rattle.std.specs.Prelude.{◌≡◌, None};
ghost use Rattle.aec_params.specs.declared.edit.Edit.TheVariants.{Overwrite, Append, Truncate, Insert, Remove};
ghost use Rattle.aec_c.specs.HandleCalls.{OnHandle, MakesEdit, MakesCopiedEdit};
ghost use Rattle.aec_c.specs.Calls.{settings_of, count_of};
ghost use Rattle.aec_c.specs.HandleLoads.{Loads};
ghost use Rattle.aec_c.specs.Kinds.{workspace_in};
ghost use Rattle.aec_c.specs.HandleReads.{Opens, size_in, calls_in, WritesOut, ReadsOut};
ghost use Rattle.aec_c.specs.ScriptCalls.{AppliesScript};

use crate::handle::Handle;
use crate::handle_edits::{append, apply_edit, insert, overwrite};
use crate::handle_loads::load;
use crate::handle_reads::{call_count, open_workspace, read_range, sample_count, write_code};
use crate::handle_scripts::apply_script;
use crate::options::Options;
use crate::reply::Reply;
use crate::stream_edits::EditReply;
use aec_params::Edit;
use std::alloc::Global;

/// Appends values to the samples. Replies how many intervals were coded.
#[unsafe(no_mangle)]
pub extern "C" fn aecp_append(
    alloc: Global,
    handle: &mut Handle,
    values: &[i64],
    reply: &mut Reply,
) -> u32
    ensures edits { OnHandle workspace_in (MakesEdit (Append values.now))
        handle.old.value handle.new.value reply.new }
    ensures number { result ≡ reply.new.fault }
{
    let mut inside = handle.take(alloc);
    *reply = append(&mut inside, values);
    handle.put(inside);
    reply.fault
}

/// Keeps the first `count` samples. Replies how many intervals were coded.
#[unsafe(no_mangle)]
pub extern "C" fn aecp_truncate(
    alloc: Global,
    handle: &mut Handle,
    count: u64,
    reply: &mut Reply,
) -> u32
    ensures edits { OnHandle workspace_in (MakesEdit (Truncate count))
        handle.old.value handle.new.value reply.new }
    ensures number { result ≡ reply.new.fault }
{
    let mut inside = handle.take(alloc);
    *reply = apply_edit(&mut inside, &Edit::Truncate { count });
    handle.put(inside);
    reply.fault
}

/// Removes the `len` samples from place `first` on. Replies how many intervals were coded.
#[unsafe(no_mangle)]
pub extern "C" fn aecp_remove(
    alloc: Global,
    handle: &mut Handle,
    first: u64,
    len: u64,
    reply: &mut Reply,
) -> u32
    ensures edits { OnHandle workspace_in (MakesEdit (Remove first len))
        handle.old.value handle.new.value reply.new }
    ensures number { result ≡ reply.new.fault }
{
    let mut inside = handle.take(alloc);
    *reply = apply_edit(&mut inside, &Edit::Remove { first, len });
    handle.put(inside);
    reply.fault
}

/// Overwrites the samples from place `first` on with the values. Replies how many intervals were
/// coded.
#[unsafe(no_mangle)]
pub extern "C" fn aecp_overwrite(
    alloc: Global,
    handle: &mut Handle,
    first: u64,
    values: &[i64],
    reply: &mut Reply,
) -> u32
    ensures edits { MakesCopiedEdit (Overwrite first values.now)
        handle.old.value handle.new.value reply.new }
    ensures number { result ≡ reply.new.fault }
{
    let mut inside = handle.take(alloc);
    *reply = overwrite(alloc, &mut inside, first, values);
    handle.put(inside);
    reply.fault
}

/// Inserts values before the sample at place `first`, or after the last one. Replies how many
/// intervals were coded.
#[unsafe(no_mangle)]
pub extern "C" fn aecp_insert(
    alloc: Global,
    handle: &mut Handle,
    first: u64,
    values: &[i64],
    reply: &mut Reply,
) -> u32
    ensures edits { MakesCopiedEdit (Insert first values.now)
        handle.old.value handle.new.value reply.new }
    ensures number { result ≡ reply.new.fault }
{
    let mut inside = handle.take(alloc);
    *reply = insert(alloc, &mut inside, first, values);
    handle.put(inside);
    reply.fault
}

/// Applies all edits of a script, or none of them. Replies how many intervals were coded, and how
/// many samples there are then. A refused script changes no sample. If one edit is refused, the
/// reply has its line.
#[unsafe(no_mangle)]
pub extern "C" fn aecp_apply(
    alloc: Global,
    handle: &mut Handle,
    script: &[u8],
    reply: &mut EditReply,
) -> u32
    ensures applies { AppliesScript script.now handle.old.value handle.new.value reply.new }
    ensures number { result ≡ reply.new.reply.fault }
{
    let mut inside = handle.take(alloc);
    *reply = apply_script(alloc, &mut inside, script);
    handle.put(inside);
    reply.reply.fault
}

/// Opens an empty workspace. On success what the handle held is freed, and `len` is 0; on an error
/// the handle is unchanged.
#[unsafe(no_mangle)]
pub extern "C" fn aecp_open(
    alloc: Global,
    options: &Options,
    handle: &mut Handle,
    reply: &mut Reply,
) -> u32
    ensures opens { Opens (settings_of options.now) handle.old.value handle.new.value reply.new }
    ensures number { result ≡ reply.new.fault }
{
    *reply = open_workspace(alloc, options, handle);
    reply.fault
}

/// Opens a workspace with the samples that a stream decodes to. Replies how many samples these are.
/// On success what the handle held is freed; on an error the handle is unchanged.
#[unsafe(no_mangle)]
pub extern "C" fn aecp_load(
    alloc: Global,
    options: &Options,
    count: u64,
    bytes: &[u8],
    handle: &mut Handle,
    reply: &mut Reply,
) -> u32
    ensures loads { Loads (settings_of options.now) (count_of count) bytes.now
        handle.old.value handle.new.value reply.new }
    ensures number { result ≡ reply.new.fault }
{
    *reply = load(alloc, options, count, bytes, handle);
    reply.fault
}

/// Frees what a handle holds.
#[unsafe(no_mangle)]
pub extern "C" fn aecp_close(alloc: Global, handle: &mut Handle)
    ensures { handle.new.value ≡ None }
{
    let _freed = handle.take(alloc);
}

/// Returns the number of samples.
#[unsafe(no_mangle)]
pub extern "C" fn aecp_size(alloc: Global, handle: &mut Handle) -> u64
    ensures size { result ≡ size_in (workspace_in handle.old.value) }
    ensures same { handle.new.value ≡ handle.old.value }
{
    let inside = handle.take(alloc);
    let size = sample_count(&inside);
    handle.put(inside);
    size
}

/// Returns how many intervals the coder has coded.
#[unsafe(no_mangle)]
pub extern "C" fn aecp_calls(alloc: Global, handle: &mut Handle) -> u64
    ensures calls { result ≡ calls_in (workspace_in handle.old.value) }
    ensures same { handle.new.value ≡ handle.old.value }
{
    let inside = handle.take(alloc);
    let calls = call_count(&inside);
    handle.put(inside);
    calls
}

/// Writes the bytes of the code of all samples to a buffer. Replies how many bytes these are.
#[unsafe(no_mangle)]
pub extern "C" fn aecp_write(
    alloc: Global,
    handle: &mut Handle,
    out: &mut [u8],
    reply: &mut Reply,
) -> u32
    ensures writes { WritesOut handle.old.value handle.new.value out.old out.new reply.new }
    ensures number { result ≡ reply.new.fault }
{
    let inside = handle.take(alloc);
    *reply = write_code(alloc, &inside, out);
    handle.put(inside);
    reply.fault
}

/// Writes the `len` samples from place `first` on to a buffer. Replies how many samples these are.
#[unsafe(no_mangle)]
pub extern "C" fn aecp_read(
    alloc: Global,
    handle: &mut Handle,
    first: u64,
    len: u64,
    out: &mut [i64],
    reply: &mut Reply,
) -> u32
    ensures reads { ReadsOut first len handle.old.value handle.new.value out.old out.new reply.new }
    ensures number { result ≡ reply.new.fault }
{
    let mut inside = handle.take(alloc);
    *reply = read_range(alloc, &mut inside, first, len, out);
    handle.put(inside);
    reply.fault
}
