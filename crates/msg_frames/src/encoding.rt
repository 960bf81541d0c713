//! How a message is spelled in its one frame.

ghost use Rattle.std.specs.Prelude.{◌≡◌, ◌+◌, ◌*◌, ◌≤◌, length, take, drop};
ghost use Rattle.msg_frames.specs.Frames.{frame, head_bytes, body_bytes, open_bytes, poke_bytes, piece_bytes};
ghost use Rattle.msg_frames.specs.Frames.{write_bytes, retire_bytes, csr_bytes, flag, target_code};
ghost use Rattle.msg_frames.specs.Frames.{target_number, rd_number, rd_value, Fits};
ghost use Rattle.tandem_base.specs.Puts.{Puts};
ghost use Rattle.std.specs.List.{flat_map};

use super::csrs::CsrList;
use super::kinds::kind_of;
use super::message::{
    Body, Head, LineWrite, Message, OpenInfo, Piece, Poke, RdValue, Retire, Target,
};
use super::sizes::body_size;
use tandem_base::{Bytes8, put};

/// Writes the one frame of a well-formed message to the front of `out`, and answers its size.
pub fn encode(message: &Message, out: &mut [u8; 514]) -> usize
    requires { Fits message.now }
    ensures written { take result out.new ≡ frame message.now }
    ensures size { result ≡ length (frame message.now) }
    ensures bound { result ≤ 514 }
    ensures rest { drop result out.new ≡ drop result out.old }
{
    put_message(out, message)
}

fn put_message(out: &mut [u8], message: &Message) -> usize
    requires { length out.old ≡ 514 }
    ensures puts { Puts 0 out.old result out.new (frame message.now) }
    ensures bound { result ≤ 514 }
{
    let size = 18 + body_size(&message.body);
    let code = kind_of(&message.body).code();
    put_head(out, size, code, message.head);
    put_body(out, &message.body)
}

fn put_head(out: &mut [u8], size: u16, code: u8, head: Head) -> usize
    requires { length out.old ≡ 514 }
    ensures { Puts 0 out.old result out.new (head_bytes size code head) }
{
    let end = put(out, 0, &size.to_le_bytes());
    let end = put(out, end, &[code, head.hart]);
    let end = put(out, end, &head.time.to_le_bytes());
    put(out, end, &head.tag.to_le_bytes())
}

/// Writes the fields of a message behind the head of its frame.
fn put_body(out: &mut [u8], body: &Body) -> usize
    requires { length out.old ≡ 514 }
    ensures { Puts 20 out.old result out.new (body_bytes body.now) }
{
    match body {
        Body::Open(info) => put_open(out, info),
        Body::Poke(poke) => put_poke(out, poke),
        Body::Read(piece) | Body::Insert(piece) | Body::Bypass(piece) => put_piece(out, piece),
        Body::Write(write) => put_write(out, write),
        Body::Retire(retire) => put_retire(out, retire),
        Body::Squash | Body::End => put(out, 20, &[]),
    }
}

fn put_open(out: &mut [u8], info: &OpenInfo) -> usize
    requires { length out.old ≡ 514 }
    ensures { Puts 20 out.old result out.new (open_bytes info.now) }
{
    let end = put(
        out,
        20,
        &[info.version, info.harts, info.flags, info.granule],
    );
    put(out, end, &info.skew.to_le_bytes())
}

fn target_code(target: Target) -> u8
    ensures { result ≡ target_code target }
{
    match target {
        Target::Pc => 0,
        Target::X(_) => 1,
        Target::Csr(_) => 2,
    }
}

fn target_number(target: Target) -> u16
    ensures { result ≡ target_number target }
{
    match target {
        Target::Pc => 0,
        Target::X(number) => u16::from(number),
        Target::Csr(number) => number,
    }
}

fn put_poke(out: &mut [u8], poke: &Poke) -> usize
    requires { length out.old ≡ 514 }
    ensures { Puts 20 out.old result out.new (poke_bytes poke.now) }
{
    let end = put(out, 20, &[target_code(poke.target), 0]);
    let end = put(out, end, &target_number(poke.target).to_le_bytes());
    put(out, end, &poke.value.to_le_bytes())
}

fn put_piece(out: &mut [u8], piece: &Piece) -> usize
    requires { length out.old ≡ 514 }
    ensures { Puts 20 out.old result out.new (piece_bytes piece.now) }
{
    let end = put(out, 20, &piece.addr.to_le_bytes());
    let end = put(out, end, &[piece.bytes.len()]);
    put_bytes(out, end, &piece.bytes)
}

#[tactic(auto, using(tandem_base::proofs::PutsLaws::puts_then))]
fn put_bytes(out: &mut [u8], at: usize, bytes: &Bytes8) -> usize
    requires { at + 8 ≤ length out.old }
    ensures { Puts at out.old result out.new bytes.now }
{
    let mut end = at;
    for k in 0..bytes.len() {
        end = put(out, end, &[bytes.byte(k)]);
    }
    end
}

fn put_write(out: &mut [u8], write: &LineWrite) -> usize
    requires { length out.old ≡ 514 }
    ensures { Puts 20 out.old result out.new (write_bytes write.now) }
{
    let end = put(out, 20, &write.line.to_le_bytes());
    let end = put(out, end, &write.mask.to_le_bytes());
    put(out, end, &write.bytes)
}

/// Bit 0 where the instruction trapped, and bit 1 where it wrote a register.
fn flags_of(trap: Option<u8>, rd: Option<RdValue>) -> u8
    ensures { result ≡ flag 1 trap + flag 2 rd }
{
    let trapped = match trap {
        Some(_) => 1,
        None => 0,
    };
    match rd {
        Some(_) => trapped + 2,
        None => trapped,
    }
}

/// The number and the value of the register that was written, or 0 and 0.
fn rd_of(rd: Option<RdValue>) -> (u8, u64)
    ensures number { result.0 ≡ rd_number rd }
    ensures value { result.1 ≡ rd_value rd }
{
    match rd {
        Some(rd) => (rd.number, rd.value),
        None => (0, 0),
    }
}

fn put_retire(out: &mut [u8], retire: &Retire) -> usize
    requires { length out.old ≡ 514 }
    ensures { Puts 20 out.old result out.new (retire_bytes retire.now) }
{
    let (number, value) = rd_of(retire.rd);
    let flags = flags_of(retire.trap, retire.rd);
    let cause = retire.trap.unwrap_or(0);
    let end = put(out, 20, &retire.pc.to_le_bytes());
    let end = put(out, end, &retire.word.to_le_bytes());
    let end = put(out, end, &retire.next.to_le_bytes());
    let end = put(out, end, &[flags, cause, number, retire.csrs.len() as u8]);
    let end = put(out, end, &value.to_le_bytes());
    put_csrs(out, end, &retire.csrs)
}

fn put_csrs(out: &mut [u8], at: usize, csrs: &CsrList) -> usize
    requires { at + 40 ≤ length out.old }
    ensures { Puts at out.old result out.new (flat_map csr_bytes csrs.now) }
{
    let mut end = at;
    for k in 0..csrs.len() {
        let Some(csr) = csrs.get(k) else {
            unreachable!()
        };
        end = put(out, end, &csr.number.to_le_bytes());
        end = put(out, end, &csr.value.to_le_bytes());
    }
    end
}
