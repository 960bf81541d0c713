//! The lines of the outcomes that have no verdict.

ghost use Rattle.std.specs.Prelude.{◌≡◌, ◌+◌, ◌≤◌, ◌++◌, codes, length, OnErr, OnOk};
ghost use Rattle.std.specs.Fmt.{decimal};
ghost use Rattle.std.specs.Io.KnownBytes.{Appends};
ghost use Rattle.tandem_cli.specs.Outcomes.{excess_text, failed_line, image_line, missing_line, usage_line};
ghost use Rattle.tandem_base.specs.Texts.{newline};
ghost use Rattle.tandem_io.specs.Causes.{HasCause};
ghost use Rattle.tandem_base.specs.Puts.{Puts};
ghost use Rattle.text_runs.specs.Written.{TakesFront};

use super::file_fault::FileFault;
use elf_image::TooLarge;
use numerals::put_decimal;
use tandem_base::put;
use tandem_io::{Failed, Sink, write_all};

/// Writes the words that `check` takes. After an error the sink took a front of the line.
pub fn print_usage<K: Sink>(out: &mut K) -> Result<(), Failed>
    ensures ok { OnOk result (Appends (K.written out.old) (K.written out.new) usage_line) }
    ensures err { OnErr result (TakesFront (K.written out.old) (K.written out.new) usage_line) }
    ensures cause { HasCause (K.faults out.old) (K.faults out.new) result }
    ensures count { K.faults out.old ≤ K.faults out.new }
{
    print_text(
        b"USAGE tandem check IMAGE STREAM [--flat BASE] [--ram BASE:SIZE]... [--limits R,S,K,M]\n",
        out,
    )
}

/// Writes that no input of this name is there. After an error the sink took a front of the line.
pub fn print_missing<K: Sink>(name: &str, out: &mut K) -> Result<(), Failed>
    ensures ok { OnOk result (Appends (K.written out.old) (K.written out.new) (missing_line name.now)) }
    ensures err { OnErr result (TakesFront (K.written out.old) (K.written out.new) (missing_line name.now)) }
    ensures cause { HasCause (K.faults out.old) (K.faults out.new) result }
    ensures count { K.faults out.old ≤ K.faults out.new }
{
    print_parts(b"INPUT missing ", name.as_bytes(), b"\n", out)
}

/// Writes that the input of this name could not be read. After an error the sink took a front of
/// the line.
pub fn print_failed<K: Sink>(name: &str, out: &mut K) -> Result<(), Failed>
    ensures ok { OnOk result (Appends (K.written out.old) (K.written out.new) (failed_line name.now)) }
    ensures err { OnErr result (TakesFront (K.written out.old) (K.written out.new) (failed_line name.now)) }
    ensures cause { HasCause (K.faults out.old) (K.faults out.new) result }
    ensures count { K.faults out.old ≤ K.faults out.new }
{
    print_parts(b"INPUT failed ", name.as_bytes(), b"\n", out)
}

/// Writes why a file is no image. After an error the sink took a front of the line.
pub fn print_image_fault<K: Sink>(fault: &FileFault, out: &mut K) -> Result<(), Failed>
    ensures ok { OnOk result (Appends (K.written out.old) (K.written out.new) (image_line fault.now)) }
    ensures err { OnErr result (TakesFront (K.written out.old) (K.written out.new) (image_line fault.now)) }
    ensures cause { HasCause (K.faults out.old) (K.faults out.new) result }
    ensures count { K.faults out.old ≤ K.faults out.new }
{
    let mut text = [0; 64];
    print_image_over(fault, &mut text, out)
}

// Writes why a file is no image, over 64 lent bytes.
fn print_image_over<K: Sink>(fault: &FileFault, text: &mut [u8], out: &mut K) -> Result<(), Failed>
    requires { length text.old ≡ 64 }
    ensures ok { OnOk result (Appends (K.written out.old) (K.written out.new) (image_line fault.now)) }
    ensures err { OnErr result (TakesFront (K.written out.old) (K.written out.new) (image_line fault.now)) }
    ensures cause { HasCause (K.faults out.old) (K.faults out.new) result }
    ensures count { K.faults out.old ≤ K.faults out.new }
{
    let end = put_image_fault(text, 0, fault);
    print_text(&text[..end], out)
}

/// Writes the text, in one go. After an error the sink took a front of it.
pub fn print_text<K: Sink>(text: &[u8], out: &mut K) -> Result<(), Failed>
    ensures ok { OnOk result (Appends (K.written out.old) (K.written out.new) text.now) }
    ensures err { OnErr result (TakesFront (K.written out.old) (K.written out.new) text.now) }
    ensures cause { HasCause (K.faults out.old) (K.faults out.new) result }
    ensures count { K.faults out.old ≤ K.faults out.new }
{
    match write_all(out, text) {
        Ok(()) => Ok(()),
        Err(_failed) => Err(Failed),
    }
}

// Writes three texts, one behind the other.
fn print_parts<K: Sink>(front: &[u8], middle: &[u8], back: &[u8], out: &mut K) -> Result<(), Failed>
    ensures ok { OnOk result (Appends (K.written out.old) (K.written out.new) (front.now ++ middle.now ++ back.now)) }
    ensures err { OnErr result
        (TakesFront (K.written out.old) (K.written out.new) (front.now ++ middle.now ++ back.now)) }
    ensures cause { HasCause (K.faults out.old) (K.faults out.new) result }
    ensures count { K.faults out.old ≤ K.faults out.new }
{
    print_two(front, middle, out)?;
    print_text(back, out)
}

// Writes two texts, one behind the other.
fn print_two<K: Sink>(front: &[u8], back: &[u8], out: &mut K) -> Result<(), Failed>
    ensures ok { OnOk result (Appends (K.written out.old) (K.written out.new) (front.now ++ back.now)) }
    ensures err { OnErr result (TakesFront (K.written out.old) (K.written out.new) (front.now ++ back.now)) }
    ensures cause { HasCause (K.faults out.old) (K.faults out.new) result }
    ensures count { K.faults out.old ≤ K.faults out.new }
{
    print_text(front, out)?;
    print_text(back, out)
}

// Puts why a file is no image.
fn put_image_fault(out: &mut [u8], at: usize, fault: &FileFault) -> usize
    requires { at + 64 ≤ length out.old }
    ensures puts { Puts at out.old result out.new (image_line fault.now) }
    ensures bound { result ≤ at + 64 }
{
    match *fault {
        FileFault::NotElf => put(out, at, b"IMAGE 1 NotElf\n"),
        FileFault::Class => put(out, at, b"IMAGE 2 Class\n"),
        FileFault::Kind => put(out, at, b"IMAGE 3 Kind\n"),
        FileFault::Machine => put(out, at, b"IMAGE 4 Machine\n"),
        FileFault::Headers(offset) => put_numbered(out, at, b"IMAGE 5 Headers ", offset),
        FileFault::Segment(index) => put_numbered(out, at, b"IMAGE 6 Segment ", index),
        FileFault::Overlap(first, second) => put_overlap(out, at, first, second),
        FileFault::TooLarge(limit) => {
            let end = put(out, at, b"IMAGE 8 TooLarge ");
            let end = put_excess(out, end, limit);
            put(out, end, b"\n")
        }
    }
}

// Puts a text, a number and a newline.
fn put_numbered(out: &mut [u8], at: usize, text: &[u8], number: u16) -> usize
    requires { at + length text.now + 6 ≤ length out.old }
    ensures puts { Puts at out.old result out.new (text.now ++ decimal number ++ newline) }
    ensures bound { result ≤ at + length text.now + 6 }
{
    let end = put(out, at, text);
    let end = put_decimal(out, end, number);
    put(out, end, b"\n")
}

// Puts that two segments share an address.
fn put_overlap(out: &mut [u8], at: usize, first: u16, second: u16) -> usize
    requires { at + 64 ≤ length out.old }
    ensures puts { Puts at out.old result out.new
        (codes "IMAGE 7 Overlap " ++ decimal first ++ codes " " ++ decimal second ++ newline) }
    ensures bound { result ≤ at + 64 }
{
    let end = put(out, at, b"IMAGE 7 Overlap ");
    let end = put_decimal(out, end, first);
    let end = put(out, end, b" ");
    let end = put_decimal(out, end, second);
    put(out, end, b"\n")
}

// Puts a limit of images, and the count that passes it.
fn put_excess(out: &mut [u8], at: usize, limit: TooLarge) -> usize
    requires { at + 46 ≤ length out.old }
    ensures puts { Puts at out.old result out.new (excess_text limit) }
    ensures bound { result ≤ at + 46 }
{
    match limit {
        TooLarge::File(length) => {
            let end = put(out, at, b"File ");
            put_decimal(out, end, length)
        }
        TooLarge::Ranges(count) => {
            let end = put(out, at, b"Ranges ");
            put_decimal(out, end, count)
        }
        TooLarge::Sum(size) => {
            let end = put(out, at, b"Sum ");
            put_decimal(out, end, size)
        }
    }
}
