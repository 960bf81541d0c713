//! Where a slot reads among the contents in memory.

ghost use Rattle.std.specs.Prelude.{◌≡◌, ◌<◌, ◌≤◌, [], length, take, IfOk, IfSome, IfNone, is_some, Some, None};
ghost use Rattle.std.specs.Prelude.{bytes_eq};
ghost use Rattle.tandem_io.specs.Inputs.{content_of};
ghost use Rattle.tandem_io.specs.Cursor.{content_at, IsPlace, PointsInto, slot_at};
ghost use Rattle.tandem_io.specs.Store.{taken_by, after_attach, after_read, lent_of, after_skip};

use std::alloc::{AllocError, Global};
use std::marker::Model;

/// A content in memory and its name.
#[derive(Debug, Drop)]
pub(super) struct NamedBytes {
    name: String,
    bytes: Vec<u8>,
}

impl Model for NamedBytes {
    ghost use Rattle.std.specs.Prelude.{string_bytes};
    ghost use Rattle.tandem_io.specs.Inputs.{Named};

    ghost Value = { Named };

    ghost view = { λ f. record { name = string_bytes f.name; bytes = f.bytes.items } };
}

impl NamedBytes {
    /// A content and its name, copied.
    pub(super) fn new(alloc: Global, name: &str, bytes: &[u8]) -> Result<NamedBytes, AllocError>
        ensures { IfOk result (λ file. file ≡ record { name = name.now; bytes = bytes.now }) }
    {
        Ok(NamedBytes {
            name: String::from_str(alloc, name)?,
            bytes: Vec::from_slice(alloc, bytes)?,
        })
    }

    fn is_named(&self, name: &str) -> bool
        ensures { result ≡ bytes_eq self.now.name name.now }
    {
        self.name.as_str() == name
    }

    fn bytes(&self) -> &[u8]
        ensures { result.now ≡ self.now.bytes }
    {
        self.bytes.as_slice()
    }
}

/// Where a slot reads: in which content, and after how many of its bytes.
#[derive(Clone, Copy, Debug)]
pub(super) struct Cursor {
    /// The place of the content among the contents.
    pub(super) file: Option<usize>,
    /// How many of its bytes were read.
    pub(super) at: usize,
    /// Whether the last read answered 0.
    pub(super) ended: bool,
    /// What the last attach answered.
    pub(super) attached: Option<bool>,
}

/// A slot that was not attached yet.
pub(super) const UNREAD: Cursor = Cursor {
    file: None,
    at: 0,
    ended: false,
    attached: None,
};

/// The place of the first content of that name.
fn find(files: &[NamedBytes], name: &str) -> Option<usize>
    ensures place { IsPlace files.now result }
    ensures found { IfSome result (λ place. content_of files.now name.now ≡ Some (content_at files.now (Some place))) }
    ensures none { IfNone result (content_of files.now name.now ≡ None) }
{
    for (place, file) in files.iter().enumerate() {
        if file.is_named(name) {
            return Some(place);
        }
    }
    None
}

/// The bytes of the content at a place.
fn bytes_at(files: &[NamedBytes], file: Option<usize>) -> &[u8]
    requires { IsPlace files.now file }
    ensures { result.now ≡ content_at files.now file }
{
    match file {
        Some(place) => files[place].bytes(),
        None => &[],
    }
}

/// Sets the cursor before the first byte of the content of that name, if it is there, and answers
/// whether it is.
pub(super) fn attach_at(files: &[NamedBytes], cursor: &mut Cursor, name: &str) -> bool
    requires { PointsInto files.now cursor.old }
    ensures within { PointsInto files.now cursor.new }
    ensures answer { result ≡ is_some (content_of files.now name.now) }
    ensures after { slot_at files.now cursor.new ≡
        after_attach (slot_at files.now cursor.old) (content_of files.now name.now) }
{
    match find(files, name) {
        Some(place) => {
            cursor.file = Some(place);
            cursor.at = 0;
            cursor.attached = Some(true);
            true
        }
        None => {
            cursor.attached = Some(false);
            false
        }
    }
}

/// Reads on at the cursor, and answers how many bytes.
pub(super) fn read_at(
    files: &[NamedBytes],
    cursor: &mut Cursor,
    step: usize,
    buf: &mut [u8],
) -> usize
    requires within { PointsInto files.now cursor.old }
    requires room { 0 < length buf.old }
    requires step { 1 ≤ step }
    ensures within { PointsInto files.now cursor.new }
    ensures answer { result ≡ taken_by (slot_at files.now cursor.old) step (length buf.old) }
    ensures after { slot_at files.now cursor.new ≡ after_read (slot_at files.now cursor.old) result }
    ensures bytes { take result buf.new ≡ take result (slot_at files.now cursor.old).left }
    ensures end { result ≡ 0 → (slot_at files.now cursor.old).left ≡ [] }
    ensures empty { cursor.old.attached ≡ None → result ≡ 0 }
{
    let bytes = bytes_at(files, cursor.file);
    let n = step.min(buf.len()).min(bytes.len() - cursor.at);
    buf[..n].copy_from_slice(&bytes[cursor.at..cursor.at + n]);
    cursor.at += n;
    cursor.ended = n == 0;
    n
}

/// The next bytes at the cursor, as many as it can and at most `step`.
pub(super) fn ready_at<'a>(files: &'a [NamedBytes], cursor: &Cursor, step: usize) -> &'a [u8]
    requires { PointsInto files.now cursor.now }
    ensures lent { result.now ≡ lent_of (slot_at files.now cursor.now) step }
    ensures empty { cursor.now.attached ≡ None → result.now ≡ [] }
{
    let bytes = bytes_at(files, cursor.file);
    let n = step.min(bytes.len() - cursor.at);
    &bytes[cursor.at..cursor.at + n]
}

/// Moves the cursor on by `n` bytes, which are there.
pub(super) fn skip_at(files: &[NamedBytes], cursor: &mut Cursor, n: usize)
    requires within { PointsInto files.now cursor.old }
    requires there { n ≤ length (slot_at files.now cursor.old).left }
    ensures within { PointsInto files.now cursor.new }
    ensures after { slot_at files.now cursor.new ≡ after_skip (slot_at files.now cursor.old) n }
{
    prove!(n <= bytes_at(files, cursor.file).len() - cursor.at);
    cursor.at += n;
    cursor.ended &= n == 0;
}
