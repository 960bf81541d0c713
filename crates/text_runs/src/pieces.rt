//! Bytes that are gathered in a buffer, and written in large pieces.

ghost use Rattle.std.specs.Prelude.{◌≡◌, ◌<◌, ◌≤◌, [], length, take, OnErr, OnOk, IfOk};
ghost use Rattle.std.specs.Io.KnownBytes.{Appends};
ghost use Rattle.tandem_io.specs.Causes.{HasCause};
ghost use Rattle.text_runs.specs.Written.{Pours, TakesFront};

use tandem_io::{Failed, Sink, write_all};

/// How many bytes a piece has at least, the last one excepted: 16 KiB.
pub(crate) const PIECE: usize = 16_384;

/// Writes the bytes at the front of the buffer, where they are enough for a piece, and answers how
/// many stand there then.
pub(crate) fn pour<K: Sink>(out: &mut K, buffer: &[u8], used: usize) -> Result<usize, Failed>
    requires { used ≤ length buffer.now }
    ensures ok { IfOk result (λ left. Pours (K.written out.old) (K.written out.new) buffer.now used left) }
    ensures few { IfOk result (λ left. left < 16384) }
    ensures err { OnErr result (TakesFront (K.written out.old) (K.written out.new) (take used buffer.now)) }
    ensures cause { HasCause (K.faults out.old) (K.faults out.new) result }
    ensures count { K.faults out.old ≤ K.faults out.new }
{
    if used < PIECE {
        return Ok(used);
    }
    match pour_all(out, buffer, used) {
        Ok(()) => Ok(0),
        Err(Failed) => Err(Failed),
    }
}

/// Writes the bytes at the front of the buffer, as the last piece.
pub(crate) fn pour_all<K: Sink>(out: &mut K, buffer: &[u8], used: usize) -> Result<(), Failed>
    requires { used ≤ length buffer.now }
    ensures ok { OnOk result (Appends (K.written out.old) (K.written out.new) (take used buffer.now)) }
    ensures err { OnErr result (TakesFront (K.written out.old) (K.written out.new) (take used buffer.now)) }
    ensures cause { HasCause (K.faults out.old) (K.faults out.new) result }
    ensures count { K.faults out.old ≤ K.faults out.new }
{
    match write_all(out, &buffer[..used]) {
        Ok(()) => Ok(()),
        Err(_failed) => Err(Failed),
    }
}
