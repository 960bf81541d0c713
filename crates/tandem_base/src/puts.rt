//! Texts that are put into a buffer, one behind the other.

ghost use Rattle.std.specs.Prelude.{◌+◌, ◌≤◌, length};
ghost use Rattle.tandem_base.specs.Puts.{Puts};

/// Puts a text into `out` from offset `at` on, and answers the offset behind it.
pub fn put(out: &mut [u8], at: usize, text: &[u8]) -> usize
    requires { at + length text.now ≤ length out.old }
    ensures { Puts at out.old result out.new text.now }
{
    let end = at + text.len();
    out[at..end].copy_from_slice(text);
    end
}
