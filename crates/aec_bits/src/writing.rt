//! Writes the bytes that a list of bits fills to a sink or into a buffer.

ghost use Rattle.std.specs.Prelude.{◌≡◌, ◌+◌, ◌-◌, ◌/◌, ◌%◌, ◌<◌, ◌≤◌, min, length, take, drop, OnOk, OnErr, IfErr};
ghost use Rattle.std.specs.Io.KnownBytes.{Appends};
ghost use Rattle.aec_params.specs.declared.fault.Fault.TheVariants.{Write as WriteFault};
ghost use Rattle.aec_params.specs.Codewords.{bytes_of};
ghost use Rattle.aec_bits.specs.Devices.{AppendsFront};

use crate::bit_buf::BitBuf;
use crate::device::Sink;
use aec_params::Fault;

/// The number of bytes that a sink gets at a time. They are on the stack, and fewer than an engine
/// reads at a time, so the stack doesn't grow when writing begins.
const PIECE_LEN: usize = 4096;

impl BitBuf {
    /// Writes the bytes that the bits fill to the sink; zeros fill up the last byte. Fails with
    /// `Write` if the sink fails; the sink has then taken a first part of these bytes. Allocates
    /// nothing, and doesn't call `begin`.
    pub fn write_to<W: Sink>(&self, out: &mut W) -> Result<(), Fault>
        ensures ok { OnOk result (Appends (W.taken out.old) (W.taken out.new)
            (bytes_of self.now.list)) }
        ensures front { OnErr result
            (AppendsFront (W.taken out.old) (W.taken out.new) (bytes_of self.now.list)) }
        ensures begun { W.begun out.new ≡ W.begun out.old }
        ensures order { W.mark out.new ≡ W.mark out.old }
        ensures fault { IfErr result (λ e. (e ≡ WriteFault) × (W.failed out.new ≡ 1)) }
        ensures failures { OnOk result (W.failed out.new ≡ W.failed out.old) }
        ensures refuses { OnOk result (0 < length self.now.list → W.failed out.old ≡ 0) }
    {
        let mut piece = [0u8; PIECE_LEN];
        let total = self.byte_len();
        let mut done = 0;
        while done < total {
            let count = fill(self, done, &mut piece);
            put_all(out, &piece[..count])?;
            done += count as u64;
        }
        Ok(())
    }

    /// Replaces all bytes of a buffer of the right length by the bytes that the bits fill; zeros
    /// fill up the last byte.
    pub fn put_bytes(&self, out: &mut [u8])
        requires { length out.old ≡ length (bytes_of self.now.list) }
        ensures { out.new ≡ bytes_of self.now.list }
    {
        let _all = fill(self, 0, out);
    }
}

/// Writes the bytes from byte `first` on to a piece, until it is full or none are left. Returns how
/// many bytes it wrote.
fn fill(buf: &BitBuf, first: u64, piece: &mut [u8]) -> usize
    requires within { first ≤ length (bytes_of buf.now.list) }
    requires eights { first % 8 ≡ 0 }
    ensures count { result ≡ min (length piece.old) (length (bytes_of buf.now.list) - first) }
    ensures bytes { take result piece.new ≡ take result (drop first (bytes_of buf.now.list)) }
{
    let left = buf.byte_len() - first;
    let count = piece.len().min(left as usize);
    let whole = count / 8 * 8;
    buf.put_words(first / 8, &mut piece[..whole]);
    for k in whole..count {
        piece[k] = buf.byte(first + k as u64);
    }
    count
}

/// Writes all bytes of a piece to a sink, in one call of `put` after another.
pub fn put_all<W: Sink>(out: &mut W, piece: &[u8]) -> Result<(), Fault>
    ensures ok { OnOk result (Appends (W.taken out.old) (W.taken out.new) piece.now) }
    ensures front { OnErr result (AppendsFront (W.taken out.old) (W.taken out.new) piece.now) }
    ensures begun { W.begun out.new ≡ W.begun out.old }
    ensures order { W.mark out.new ≡ W.mark out.old }
    ensures fault { IfErr result (λ e. (e ≡ WriteFault) × (W.failed out.new ≡ 1)) }
    ensures failures { OnOk result (W.failed out.new ≡ W.failed out.old) }
    ensures refuses { OnOk result (0 < length piece.now → W.failed out.old ≡ 0) }
{
    let mut done = 0;
    while done < piece.len() {
        done += out.put(&piece[done..])?;
    }
    Ok(())
}
