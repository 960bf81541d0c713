//! What takes bytes, and how a text is written whole.

ghost use Rattle.std.specs.Prelude.{◌≡◌, ℕ, ◌<◌, ◌≤◌, List, take, length, Option, IfOk, OnOk, IfErr};
ghost use Rattle.std.specs.Io.KnownBytes.{Appends, WriteAppends};
ghost use Rattle.tandem_io.specs.Causes.{HasCause};

use super::types::Failed;

/// What takes bytes: the output of a run.
///
/// A sink has a count of faults. It never falls, and stands still at 2^64 - 1.
pub trait Sink {
    // The bytes that it took, where it tells them.
    ghost written: { Self → Option (List ℕ) };

    // Its count of faults.
    ghost faults: { Self → ℕ };

    /// Takes the first bytes of `buf`, which is not empty, and answers how many: at least 1.
    /// A write that fails takes nothing.
    fn write(&mut self, buf: &[u8]) -> Result<usize, Failed>
        requires { 0 < length buf.now }
        ensures least { IfOk result (λ n. 0 < n) }
        ensures most { IfOk result (λ n. n ≤ length buf.now) }
        ensures bytes { WriteAppends (written self.old) (written self.new) result buf.now }
        ensures cause { HasCause (faults self.old) (faults self.new) result }
        ensures count { faults self.old ≤ faults self.new };
}

/// A text that was not written whole.
#[derive(Clone, Copy, Debug, PartialEq, Eq)]
pub struct WriteFailed {
    /// How many bytes of the text were taken, from its first on.
    pub put: u64,
}

/// Writes the whole text, in as many writes as the sink wants. After an error the sink took just
/// the first `put` bytes.
pub fn write_all<K: Sink>(out: &mut K, text: &[u8]) -> Result<(), WriteFailed>
    ensures ok { OnOk result (Appends (K.written out.old) (K.written out.new) text.now) }
    ensures err { IfErr result (λ failed. Appends (K.written out.old) (K.written out.new) (take failed.put text.now)) }
    ensures part { IfErr result (λ failed. failed.put < length text.now) }
    ensures cause { HasCause (K.faults out.old) (K.faults out.new) result }
    ensures count { K.faults out.old ≤ K.faults out.new }
{
    let mut put = 0;
    while put < text.len() {
        match out.write(&text[put..]) {
            Ok(n) => put += n,
            Err(Failed) => return Err(WriteFailed { put: put as u64 }),
        }
    }
    Ok(())
}
