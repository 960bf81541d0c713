//! The source of a byte, from what tables find of it.

ghost use Rattle.std.specs.Prelude.{◌≡◌, ◌-◌, ◌+◌, ◌≤◌, ◌<◌, option_copied, slice_index};
ghost use Rattle.window_laws.specs.ToldSources.{kept_source, waiting_source};
ghost use Rattle.reads_from.specs.Choice.{TellsSource, captured_source, source_chosen};

use byte_memory::Capture;
use kept_ops::{Kept, KeptOp};
use store_buffer::{Pending, Stores};
use tandem_base::{Bytes8, Origin};
use window_laws::ByteSource;

/// A byte that waits, as a source.
fn of_waiting(waiting: Pending) -> ByteSource
    ensures { result ≡ waiting_source waiting.hart waiting.tag waiting.byte }
{
    ByteSource {
        writer: Some(Origin {
            hart: waiting.hart,
            tag: waiting.tag,
        }),
        place: None,
        byte: waiting.byte,
    }
}

/// Byte `k` of a list, 0 past its end.
fn byte_of(bytes: &Bytes8, k: u64) -> u8
    ensures { result ≡ slice_index bytes.now k }
{
    if k < u64::from(bytes.len()) {
        bytes.byte(k as u8)
    } else {
        0
    }
}

/// The byte at `addr` of a kept store that has it, as a source.
fn of_kept(op: &KeptOp, addr: u64) -> ByteSource
    ensures { result ≡ kept_source op.now addr }
{
    ByteSource {
        writer: Some(Origin {
            hart: op.name.hart,
            tag: op.name.tag,
        }),
        place: Some(op.place),
        byte: byte_of(&op.put, addr.saturating_sub(op.extent.addr)),
    }
}

/// The byte at `addr` of a capture that has it, as a source.
fn of_capture(seen: &Capture, addr: u64) -> ByteSource
    requires from { seen.now.base ≤ addr }
    requires to { addr < seen.now.base + 8 }
    ensures { result ≡ captured_source seen.now addr }
{
    let k = (addr - seen.base) as usize;
    match seen.last[k] {
        None => ByteSource {
            writer: None,
            place: None,
            byte: seen.values[k],
        },
        Some(writer) => ByteSource {
            writer: Some(Origin {
                hart: writer.hart,
                tag: writer.tag,
            }),
            place: Some(writer.place),
            byte: seen.values[k],
        },
    }
}

/// What waits, else what is kept, else what was captured.
fn choose(waiting: Option<Pending>, kept: Option<&KeptOp>, seen: &Capture, addr: u64) -> ByteSource
    requires from { seen.now.base ≤ addr }
    requires to { addr < seen.now.base + 8 }
    ensures { result ≡ source_chosen waiting (option_copied kept.entry) seen.now addr }
{
    match waiting {
        Some(waiting) => of_waiting(waiting),
        None => match kept {
            Some(op) => of_kept(op, addr),
            None => of_capture(seen, addr),
        },
    }
}

/// The source of the byte at `addr` of an operation that an instruction adds when it retires, by the
/// load value axiom: the byte that waits of the latest earlier store of its hart, else that of the latest
/// kept store of its hart after it, else what its report saw. The byte is one of the report's.
pub fn source(seen: &Capture, stores: &Stores, kept: &Kept, addr: u64) -> ByteSource
    // A capture has the bytes of its report.
    requires from { seen.now.base ≤ addr }
    requires to { addr < seen.now.base + 8 }
    ensures { TellsSource stores.now kept.now seen.now addr result }
{
    choose(
        stores.pending_at(addr),
        kept.store_over(addr, seen.place),
        seen,
        addr,
    )
}
