//! Traces as tables, and the answers that are wanted.
use rv_decode::{AmoOp, BranchOp, CsrOp, ImmOp, Insn, LoadOp, RegOp, StoreOp};
use rvwmo_model::{Ann, Judged, Last, Op, OpKind, Retired};
use std::alloc::Global;
use std::test::Fail;
use tandem_base::{Bytes8, Extent, OpName, Origin, Place};

/// Hart, tag and part.
pub type Name = (u8, u64, u8);

/// Number, granule and answer.
pub type CaseRow = (u8, u8, Want);

/// Number of the trace and granule, the hart and the tag that are asked, and answer.
pub type LastRow = (u8, u8, u8, Option<u64>, LastWant);

/// Number, granule, how it comes from another case, and answer.
pub type GrownRow = (u8, u8, Step, Want);

/// The first and the last case in which it stands; hart, tag, kind, rd, rs1, rs2 or CSR, stored.
pub type InsnRow = (u8, u8, u8, u64, Kind, u8, u8, u16, bool);

/// The first and the last case in which it stands; name, kind, address, length and mask, what it loads
/// and stores, place.
pub type OpRow = (u8, u8, Name, Access, (u64, u8, u8), (u64, u64), PlaceRow);

type PlaceRow = Option<(u64, u64, u64)>;

/// Kind, acquire and release annotation.
pub type Access = (OpKind, Ann, Ann);

pub const L: Access = (OpKind::Load, Ann::None, Ann::None);

pub const L_AQ: Access = (OpKind::Load, Ann::Rcsc, Ann::None);

pub const L_RCPC: Access = (OpKind::Load, Ann::Rcpc, Ann::None);

pub const S: Access = (OpKind::Store, Ann::None, Ann::None);

pub const S_RCPC: Access = (OpKind::Store, Ann::None, Ann::Rcpc);

pub const B: Access = (OpKind::Both, Ann::None, Ann::None);

pub const B_AQ: Access = (OpKind::Both, Ann::Rcsc, Ann::None);

pub const B_RL: Access = (OpKind::Both, Ann::None, Ann::Rcsc);

pub const X: u64 = 0x80001000;

pub const U: u64 = 0x8000103c;

pub const V: u64 = 0x80001008;

pub const Y: u64 = 0x80001040;

pub const Z: u64 = 0x80001080;

/// The instructions of the tables. A FENCE has fm, pred and succ in place of its registers.
#[derive(Clone, Copy)]
pub enum Kind {
    Lui,
    Auipc,
    Jal,
    Jalr,
    Beq,
    Lw,
    Ld,
    Sw,
    Sd,
    Xor,
    Add,
    Addi,
    Fence,
    Csrrw,
    Csrrs,
    Csrrc,
    Csrrwi,
    Csrrsi,
    Csrrci,
    Lr,
    Sc,
    Amoadd,
    Amoswap,
    Mret,
    Wfi,
}

#[derive(Clone, Copy)]
pub enum Want {
    Legal,
    Pair(Name),
    Value(Name, u64, u8, u8),
    Order(u8, Name, Name),
    Atomicity(Name, u64, (u8, u64)),
}

#[derive(Clone, Copy)]
pub enum LastWant {
    Fine,
    Wrong(u64, u8, u8),
    Disordered(u8, Name, Name),
    Torn(u64, (u8, u64)),
}

/// How a trace comes from that of an earlier case: by a growth, or by what lacks one premise of a growth.
#[derive(Clone, Copy)]
pub enum Step {
    /// From no other.
    Start,

    /// An early store more.
    Early(u8),

    /// An early store more, at a place that isn't above all.
    EarlyBelow(u8),

    /// An instruction more.
    Insn(u8),

    /// An instruction more that isn't the youngest of its hart.
    InsnBetween(u8),

    /// Stores performed.
    Stores(u8),

    /// Stores performed at a place that isn't above all.
    StoresBelow(u8),
}

/// The lists of one trace: in `all` the operations, `count` of them, and then the early stores.
#[derive(Drop)]
pub struct Lists {
    pub insns: Vec<Retired>,
    pub all: Vec<Op>,
    pub count: usize,
    pub granule: u8,
}

impl Lists {
    /// The operations, and the early stores.
    pub fn split(&self) -> (&[Op], &[Op]) {
        self.all.split_at(self.count.min(self.all.len()))
    }
}

/// The tables of one kind of traces.
#[derive(Clone, Copy)]
pub struct Tables<'a> {
    pub insns: &'a [InsnRow],
    pub ops: &'a [OpRow],
    pub early: &'a [OpRow],
}

fn alu(op: RegOp, rd: u8, rs1: u8, rs2: u8) -> Insn {
    Insn::Alu { op, rd, rs1, rs2 }
}

fn csr(op: CsrOp, rd: u8, source: u8, number: u16) -> Insn {
    Insn::Csr {
        op,
        rd,
        source,
        number,
    }
}

fn amo(op: AmoOp, rd: u8, rs1: u8, rs2: u8) -> Insn {
    Insn::Amo {
        op,
        wide: false,
        aq: false,
        rl: false,
        rd,
        rs1,
        rs2,
    }
}

fn load(op: LoadOp, rd: u8, rs1: u8) -> Insn {
    Insn::Load {
        op,
        rd,
        rs1,
        imm: 0,
    }
}

fn store(op: StoreOp, rs1: u8, rs2: u8) -> Insn {
    Insn::Store {
        op,
        rs1,
        rs2,
        imm: 0,
    }
}

fn addi(rd: u8, rs1: u8) -> Insn {
    Insn::AluImm {
        op: ImmOp::Addi,
        rd,
        rs1,
        imm: 0,
    }
}

fn beq(rs1: u8, rs2: u8) -> Insn {
    Insn::Branch {
        op: BranchOp::Beq,
        rs1,
        rs2,
        imm: 4,
    }
}

fn fence(fm: u8, pred: u8, succ: u8) -> Insn {
    Insn::Fence {
        fm,
        pred,
        succ,
        rd: 0,
        rs1: 0,
    }
}

fn lr(rd: u8, rs1: u8) -> Insn {
    Insn::Lr {
        wide: false,
        aq: false,
        rl: false,
        rd,
        rs1,
    }
}

fn sc(rd: u8, rs1: u8, rs2: u8) -> Insn {
    Insn::Sc {
        wide: false,
        aq: false,
        rl: false,
        rd,
        rs1,
        rs2,
    }
}

fn insn_from(kind: Kind, rd: u8, rs1: u8, last: u16) -> Insn {
    let rs2 = (last & 0xff) as u8;
    match kind {
        Kind::Lui => Insn::Lui { rd, imm: 0 },
        Kind::Auipc => Insn::Auipc { rd, imm: 0 },
        Kind::Jal => Insn::Jal { rd, imm: 4 },
        Kind::Jalr => Insn::Jalr { rd, rs1, imm: 0 },
        Kind::Beq => beq(rs1, rs2),
        Kind::Lw => load(LoadOp::Lw, rd, rs1),
        Kind::Ld => load(LoadOp::Ld, rd, rs1),
        Kind::Sw => store(StoreOp::Sw, rs1, rs2),
        Kind::Sd => store(StoreOp::Sd, rs1, rs2),
        Kind::Xor => alu(RegOp::Xor, rd, rs1, rs2),
        Kind::Add => alu(RegOp::Add, rd, rs1, rs2),
        Kind::Addi => addi(rd, rs1),
        Kind::Fence => fence(rd, rs1, rs2),
        Kind::Csrrw => csr(CsrOp::Rw, rd, rs1, last),
        Kind::Csrrs => csr(CsrOp::Rs, rd, rs1, last),
        Kind::Csrrc => csr(CsrOp::Rc, rd, rs1, last),
        Kind::Csrrwi => csr(CsrOp::Rwi, rd, rs1, last),
        Kind::Csrrsi => csr(CsrOp::Rsi, rd, rs1, last),
        Kind::Csrrci => csr(CsrOp::Rci, rd, rs1, last),
        Kind::Lr => lr(rd, rs1),
        Kind::Sc => sc(rd, rs1, rs2),
        Kind::Amoadd => amo(AmoOp::Add, rd, rs1, rs2),
        Kind::Amoswap => amo(AmoOp::Swap, rd, rs1, rs2),
        Kind::Mret => Insn::Mret,
        Kind::Wfi => Insn::Wfi,
    }
}

fn retired_of(row: &InsnRow) -> Retired {
    Retired {
        hart: row.2,
        tag: row.3,
        insn: insn_from(row.4, row.5, row.6, row.7),
        stored: row.8,
    }
}

fn bytes_of(value: u64, extent: &Extent) -> Option<Bytes8> {
    let bytes = value.to_le_bytes();
    Bytes8::new(&bytes[..usize::from(extent.len())])
}

fn place_from(place: PlaceRow) -> Option<Place> {
    match place {
        None => None,
        Some((time, message, insert)) => Some(Place {
            time,
            message,
            insert,
        }),
    }
}

fn op_of(row: &OpRow) -> Option<Op> {
    let (addr, len, mask) = row.4;
    let (kind, acquire, release) = row.3;
    let extent = Extent::new(addr, len)?;
    let got = bytes_of((row.5).0, &extent)?;
    let put = bytes_of((row.5).1, &extent)?;
    Some(Op {
        name: name_of(row.2),
        kind,
        extent,
        mask,
        got,
        put,
        acquire,
        release,
        place: place_from(row.6),
    })
}

fn insns_of(alloc: Global, rows: &[InsnRow], case: u8) -> Result<Vec<Retired>, Fail> {
    let mut insns = Vec::new(alloc);
    for row in rows {
        if row.0 <= case && case <= row.1 {
            insns.push(retired_of(row))?;
        }
    }
    Ok(insns)
}

fn push_ops(all: &mut Vec<Op>, rows: &[OpRow], case: u8) -> Result<(), Fail> {
    for row in rows {
        if row.0 <= case && case <= row.1 {
            all.push(op_of(row).ok_or("an operation of no form")?)?;
        }
    }
    Ok(())
}

/// The trace of one case of the tables.
pub fn lists_of(alloc: Global, tables: &Tables<'_>, case: u8, granule: u8) -> Result<Lists, Fail> {
    let insns = insns_of(alloc, tables.insns, case)?;
    let mut all = Vec::new(alloc);
    push_ops(&mut all, tables.ops, case)?;
    let count = all.len();
    push_ops(&mut all, tables.early, case)?;
    Ok(Lists {
        insns,
        all,
        count,
        granule,
    })
}

fn name_of(name: Name) -> OpName {
    OpName {
        hart: name.0,
        tag: name.1,
        part: name.2,
    }
}

/// The answer that a table wants.
pub fn wanted(want: Want) -> Judged {
    match want {
        Want::Legal => Judged::Legal,
        Want::Pair(name) => Judged::Pair(name_of(name)),
        Want::Value(name, at, want, got) => Judged::Value {
            name: name_of(name),
            at,
            want,
            got,
        },
        Want::Order(rule, first, second) => Judged::Order {
            rule,
            first: name_of(first),
            second: name_of(second),
        },
        Want::Atomicity(name, at, (hart, tag)) => Judged::Atomicity {
            name: name_of(name),
            at,
            store: Origin { hart, tag },
        },
    }
}

/// The answer that a table wants at the newest step.
pub fn last_wanted(want: LastWant) -> Last {
    match want {
        LastWant::Fine => Last::Fine,
        LastWant::Wrong(at, want, got) => Last::Value { at, want, got },
        LastWant::Disordered(rule, first, second) => Last::Order {
            rule,
            first: name_of(first),
            second: name_of(second),
        },
        LastWant::Torn(at, (hart, tag)) => Last::Atomicity {
            at,
            store: Origin { hart, tag },
        },
    }
}
