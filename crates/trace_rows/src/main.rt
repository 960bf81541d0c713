//! Lists of messages, and the trace of each: a test by its input and its output. A line of the input
//! has a name, an image from 0x80000000 on, and frames, in hexadecimal. The output has the name, and
//! then the line of the first fault, or a line for each instruction, operation and early store of the
//! trace. What has to come out was worked out by another implementation of the same rules.
#![tactic(auto)]

ghost use Rattle.std.specs.Prelude.{IfOk};
ghost use Rattle.std.specs.List.{All};
ghost use Rattle.msg_frames.specs.Frames.{Fits};

use elf_image::{Image, Ram};
use msg_frames::{MessageList, decode};
use rvwmo_model::{Ann, InsnList, Op, OpKind, OpList, Retired, Trace};
use std::alloc::{AllocError, Global};
use std::io;
use tandem_base::Place;
use trace_model::{Traced, plain_trace};
use verdict_report::{Fault, Report, Verdict, line};

const RAM: [Ram; 1] = [Ram {
    base: 0x8000_1000,
    size: 0x1000,
}];

/// How many bytes a frame takes, by its first two; two where there are none.
fn frame_size(stream: &[u8], at: usize) -> usize {
    match (stream.get(at), stream.get(at.wrapping_add(1))) {
        (Some(low), Some(high)) => 2 + usize::from(*low) + 256 * usize::from(*high),
        _ => 2,
    }
}

/// The messages of a stream, up to the first frame that is none.
fn messages_of(alloc: Global, stream: &[u8]) -> Result<MessageList, AllocError>
    ensures { IfOk result (λ messages. All Fits messages) }
{
    let mut messages = MessageList::new(alloc);
    let mut at: usize = 0;
    for _ in 0..stream.len() {
        let end = at.wrapping_add(frame_size(stream, at));
        let Some(frame) = stream.get(at..end) else {
            return Ok(messages);
        };
        let Ok(message) = decode(frame) else {
            return Ok(messages);
        };
        messages.push(message)?;
        at = end;
    }
    Ok(messages)
}

/// Where message `number` begins.
fn offset_of(stream: &[u8], number: u64) -> u64 {
    let mut at: usize = 0;
    for _ in 1..number {
        at = at.wrapping_add(frame_size(stream, at));
    }
    at as u64
}

/// The word for a kind of operation.
fn kind_word(kind: OpKind) -> &'static str {
    match kind {
        OpKind::Load => "load",
        OpKind::Store => "store",
        OpKind::Both => "both",
    }
}

/// The word for an annotation.
fn ann_word(ann: Ann) -> &'static str {
    match ann {
        Ann::None => "none",
        Ann::Rcpc => "rcpc",
        Ann::Rcsc => "rcsc",
    }
}

/// Writes a place.
fn write_place(rt: &HostRuntime, place: &Option<Place>) -> io::Result<()> {
    match place {
        Some(place) => println!(rt; " place={}.{}.{}", place.time, place.message, place.insert),
        None => println!(rt; " place=-"),
    }
}

/// Writes an operation.
fn write_op(rt: &HostRuntime, op: &Op) -> io::Result<()> {
    print!(rt; "  op {}:{}.{} ", op.name.hart, op.name.tag, op.name.part)?;
    print!(rt;
        "{} {}+{}",
        kind_word(op.kind),
        op.extent.addr(),
        op.extent.len()
    )?;
    print!(rt;
        " mask={} got={} put={}",
        op.mask,
        op.got.number(),
        op.put.number()
    )?;
    print!(rt; " {} {}", ann_word(op.acquire), ann_word(op.release))?;
    write_place(rt, &op.place)
}

/// Writes the operations of a list.
fn write_ops(rt: &HostRuntime, ops: &OpList) -> io::Result<()> {
    for k in 0..ops.len() {
        if let Some(op) = ops.get(k) {
            write_op(rt, op)?;
        }
    }
    Ok(())
}

/// Writes an instruction.
fn write_insn(rt: &HostRuntime, insn: &Retired) -> io::Result<()> {
    println!(rt; "  insn {}:{} stored={}", insn.hart, insn.tag, insn.stored)
}

/// Writes the instructions of a list.
fn write_insns(rt: &HostRuntime, insns: &InsnList) -> io::Result<()> {
    for k in 0..insns.len() {
        if let Some(insn) = insns.get(k) {
            write_insn(rt, insn)?;
        }
    }
    Ok(())
}

/// Writes a trace.
fn write_trace(rt: &HostRuntime, name: &str, trace: &Trace) -> io::Result<()> {
    println!(rt; "{name}: granule={}", trace.granule)?;
    write_insns(rt, &trace.insns)?;
    write_ops(rt, &trace.ops)?;
    println!(rt; "  early {}", trace.early.len())?;
    write_ops(rt, &trace.early)
}

/// Writes the line of a fault of a message.
fn write_fault(
    rt: &HostRuntime,
    name: &str,
    stream: &[u8],
    messages: &MessageList,
    message: u64,
    fault: Fault,
) -> io::Result<()> {
    let head = match messages.get(message.wrapping_sub(1) as usize) {
        Some(message) => Some(message.head),
        None => None,
    };
    let verdict = Verdict::Reject(Report {
        message,
        offset: offset_of(stream, message),
        head,
        fault,
    });
    let mut out = [0; 256];
    let end = line(&verdict, &mut out);
    let told = out.get(..end.saturating_sub(1)).unwrap_or(b"");
    println!(rt; "{name}: {}", str::from_utf8(told).unwrap_or("?"))
}

/// Writes what a stream over an image comes to.
fn write_stream(rt: &HostRuntime, name: &str, bytes: &[u8], stream: &[u8]) -> io::Result<()> {
    let Ok(image) = Image::flat(rt.alloc(), bytes, 0x8000_0000, &RAM) else {
        return Ok(());
    };
    let messages = messages_of(rt.alloc(), stream)?;
    match plain_trace(rt.alloc(), &image, &messages)? {
        Traced::Whole(trace) => write_trace(rt, name, &trace),
        Traced::Faulty { message, fault } => {
            write_fault(rt, name, stream, &messages, message, fault)
        }
    }
}

/// The bytes of a text in hexadecimal, none where it is no such text.
fn bytes_of(alloc: Global, text: &str) -> Vec<u8> {
    match hex::decode(alloc, text) {
        Ok(bytes) => bytes,
        Err(_) => Vec::new(alloc),
    }
}

/// Writes the name of a list and what it comes to.
fn answer(rt: &HostRuntime, text: &str) -> io::Result<()> {
    let mut words = text.split(' ');
    let name = words.next().unwrap_or("");
    let image = bytes_of(rt.alloc(), words.next().unwrap_or(""));
    let stream = bytes_of(rt.alloc(), words.next().unwrap_or(""));
    write_stream(rt, name, &image, &stream)
}

fn main(rt: HostRuntime) -> io::Result<()> {
    for text in rt.lines(rt.alloc()) {
        let text = text?;
        answer(&rt, text.as_str())?;
    }
    Ok(())
}
