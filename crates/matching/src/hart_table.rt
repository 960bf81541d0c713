//! What is kept of a hart, and what its messages make of it.

ghost use Rattle.std.specs.Prelude.{◌≡◌, ◌<◌, ◌∷◌, [], ℕ, length, slice_index_or, IfOk, map, not};
ghost use Rattle.std.specs.Prelude.{OnErr, OnOk, if◌then◌else◌};
ghost use Rattle.std.specs.List.{filter};
ghost use Rattle.elf_image.specs.Images.{loaded_of};
ghost use Rattle.msg_frames.specs.Frames.{Fits};
ghost use Rattle.matching.specs.Tags as Tags;
ghost use Rattle.matching.specs.Tables as Tables;
ghost use Rattle.matching.specs.declared.hart_table.HartTable.{HartTable};

mod checking;

use super::reports::{OpenReport, keep_above, keep_below, report_from};
use super::run::{Clocks, Pair, keep_pair};
use super::step::Step;
use super::stores::{Fate, Held, Tracked, drop_line, held_from, keep_store, take_line, take_part};
use elf_image::Image;
use msg_frames::{Body, Head, LineWrite, Message, Piece, Poke, Retire};
use rv_step::{Hart, What};
use std::alloc::{AllocError, Global};
use tandem_base::Place;

/// What the messages so far say of a hart. Reports, Inserts and stores stand in the order in which
/// they came.
#[derive(Debug, Drop)]
pub struct HartTable {
    pub hart: Hart,
    pub last: Option<u64>,
    pub clocks: Clocks,
    pub pair: Option<Pair>,
    pub live: Vec<OpenReport>,
    pub inserts: Vec<Held>,
    pub stores: Vec<Tracked>,
}

/// Whether a tag is above the last retired one.
fn is_younger(last: Option<u64>, tag: u64) -> bool
    ensures { result ≡ Tags.is_younger last tag }
{
    match last {
        None => true,
        Some(last) => last < tag,
    }
}

/// The harts of a stream before its first message.
pub fn starts(alloc: Global, image: &Image) -> Result<Vec<HartTable>, AllocError>
    ensures { IfOk result (λ harts. (length harts.items ≡ 16) × ((h : ℕ) (other : HartTable) → h < 16 →
        Tables.table_of (slice_index_or harts.items h other) ≡ Tables.table_at (loaded_of image.now) [] h)) }
{
    let mut harts = Vec::new(alloc);
    for number in 0..16u8 {
        harts.push(HartTable::new(alloc, image, number))?;
    }
    Ok(harts)
}

impl HartTable {
    /// A hart before its first message.
    pub fn new(alloc: Global, image: &Image, number: u8) -> HartTable
        ensures { Tables.table_of result ≡ Tables.table_at (loaded_of image.now) [] number }
    {
        HartTable {
            hart: Hart::new(number, image.entry()),
            last: None,
            clocks: Clocks { cycle: 0, time: 0 },
            pair: None,
            live: Vec::new(alloc),
            inserts: Vec::new(alloc),
            stores: Vec::new(alloc),
        }
    }

    /// Whether a Bypass is early: its instruction has not retired.
    pub fn is_early(&self, tag: u64) -> bool
        ensures { result ≡ Tags.is_younger self.now.last tag }
    {
        is_younger(self.last, tag)
    }

    /// Takes an Insert, which is message `n`.
    fn insert(&mut self, n: u64, head: &Head, piece: &Piece) -> Result<(), AllocError>
        ensures kept { OnErr result (Tables.table_of self.new ≡ Tables.table_of self.old) }
        ensures taken { OnOk result (Tables.table_of self.new ≡ record (Tables.table_of self.old) {
          inserts = Tables.held_of n head.now piece.now ∷ (Tables.table_of self.old).inserts;
          stores = map (Tables.with_part (Fate.Waiting n) head.now.tag piece.now) (Tables.table_of self.old).stores;
        }) }
    {
        self.inserts.push(held_from(n, head, piece))?;
        take_part(&mut self.stores, Fate::Waiting(n), head.tag, piece);
        Ok(())
    }

    /// Takes a Write, which is message `n`.
    fn write(&mut self, n: u64, head: &Head, write: &LineWrite)
        ensures { Tables.table_of self.new ≡ record (Tables.table_of self.old) {
          inserts = filter (λ e. not (Tables.is_in write.now.line e)) (Tables.table_of self.old).inserts;
          stores = map (Tables.with_line head.now.time n write.now.line) (Tables.table_of self.old).stores;
        } }
    {
        drop_line(&mut self.inserts, write.line);
        take_line(&mut self.stores, head.time, n, write.line);
    }

    /// Takes a plain Bypass, which is message `n`; an early one is none of the hart's own.
    fn bypass(&mut self, n: u64, head: &Head, piece: &Piece)
        ensures { Tables.table_of self.new ≡ (if Tags.is_younger self.old.last head.now.tag
            then Tables.table_of self.old else record (Tables.table_of self.old) {
              stores = map (Tables.with_part (Fate.Done (record { time = head.now.time; message = n; insert = n }))
                  head.now.tag piece.now) (Tables.table_of self.old).stores;
            }) }
    {
        if !self.is_early(head.tag) {
            let place = Place {
                time: head.time,
                message: n,
                insert: n,
            };
            take_part(&mut self.stores, Fate::Done(place), head.tag, piece);
        }
    }

    /// Takes a Retire, by its step.
    fn retire(&mut self, head: &Head, retire: &Retire, step: &Step) -> Result<(), AllocError>
        ensures kept { OnErr result (Tables.table_of self.new ≡ Tables.table_of self.old) }
        ensures taken { OnOk result (Tables.table_of self.new
            ≡ Tables.table_stepped (Tables.table_of self.old) head.now retire.now step.now) }
    {
        let Step { plan, effect, .. } = step;
        keep_store(&mut self.stores, head.tag, &plan.what, &effect.store)?;
        self.hart.commit(effect);
        self.clocks.advance(&plan.what, retire.rd);
        keep_pair(&mut self.pair, &plan.what);
        self.last = Some(head.tag);
        keep_above(&mut self.live, head.tag);
        Ok(())
    }

    /// Takes message `n`, which is of the hart; a Retire by its step. Where memory is refused nothing has
    /// changed.
    pub fn take(&mut self, n: u64, message: &Message, step: &Step) -> Result<(), AllocError>
        requires { Fits message.now }
        ensures kept { OnErr result (Tables.table_of self.new ≡ Tables.table_of self.old) }
        ensures taken { OnOk result (Tables.table_of self.new
            ≡ Tables.table_taken n (Tables.table_of self.old) message.now.head message.now.body step.now) }
    {
        let head = &message.head;
        match &message.body {
            Body::Poke(poke) => self.hart.poke(poke),
            Body::Read(piece) => self.live.push(report_from(n, head, piece))?,
            Body::Insert(piece) => self.insert(n, head, piece)?,
            Body::Write(write) => self.write(n, head, write),
            Body::Bypass(piece) => self.bypass(n, head, piece),
            Body::Retire(retire) => self.retire(head, retire, step)?,
            Body::Squash => keep_below(&mut self.live, head.tag),
            Body::Open(_) | Body::End => {}
        }
        Ok(())
    }
}
