//! The tables of all harts, one message at a time.

ghost use Rattle.std.specs.Prelude.{◌≡◌, ◌≤◌, length};
ghost use Rattle.matching.specs.Settings as Settings;

mod checking;

use super::copying::copies;
use super::hart_table::{HartTable, starts};
use super::reports::{OpenReport, drop_report, report_from};
use super::step::Step;
use super::stores::Tracked;
use elf_image::Image;
use msg_frames::{Body, Head, Message};
use rv_step::Config;
use std::alloc::{AllocError, Global};
use verdict_report::Fault;

/// What the messages of a stream say so far: of each hart its state, its last retired tag, its
/// counters, its live Reads, its waiting Inserts, its stores with the fate of each byte, and its LR
/// that an SC may be paired with; and the early Bypasses of all harts.
#[derive(Debug, Drop)]
pub struct Matching {
    known: u8,
    config: Config,
    time: u64,
    early: Vec<OpenReport>,
    harts: Vec<HartTable>,
    ghost few: { known ≤ 16 },
    ghost sixteen: { length harts.items ≡ 16 },
}

/// The settings that flags give.
fn config_in_flags(flags: u8) -> Config
    ensures { result ≡ Settings.config_in flags }
{
    Config {
        mtval_word: flags % 2 == 1,
        traps_misaligned: flags / 2 % 2 == 1,
    }
}

impl Matching {
    ghost use Rattle.std.specs.Prelude.{◌≡◌, ◌<◌, List, [], ◌∷◌, reverse, IfOk};
    ghost use Rattle.std.specs.Prelude.{None, IfNone, OnErr, OnOk};
    ghost use Rattle.std.specs.Option.{option_map_or};
    ghost use Rattle.elf_image.specs.Images.{Loaded, loaded_of};
    ghost use Rattle.msg_frames.specs.Frames.{Fits};
    ghost use Rattle.msg_frames.specs.declared.message.Message.{Message};
    ghost use Rattle.msg_frames.specs.declared.message.Body.TheVariants as Body;
    ghost use Rattle.matching.specs.Settings.{number_after};
    ghost use Rattle.matching.specs.Steps.{IsStep};
    ghost use Rattle.matching.specs.Tags.{is_younger};
    ghost use Rattle.matching.specs.Matching.{match_fault};
    ghost use Rattle.matching.specs.declared.hart_table.HartTable.{HartTable};
    ghost use Rattle.matching.specs.declared.tables.Matching.{Matching};
    ghost use Rattle.matching.specs.Tables.{Stands, IsSame, TakesHart, TakesReport, Takes, table_in, early_dropped};

    /// The tables before the first message.
    pub fn new(alloc: Global, image: &Image) -> Result<Matching, AllocError>
        ensures { IfOk result (λ made. Stands (loaded_of image.now) made []) }
    {
        Ok(Matching {
            known: 0,
            config: config_in_flags(0),
            time: 0,
            early: Vec::new(alloc),
            harts: starts(alloc, image)?,
        })
    }

    /// Takes the settings of an Open, and the time of the message.
    fn note(&mut self, message: &Message)
        requires { Fits message.now }
        ensures known { self.new.known
            ≡ option_map_or (λ info. info.harts) (Settings.open_of message.now.body) self.old.known }
        ensures config { self.new.config ≡ option_map_or (λ info. Settings.config_in info.flags)
            (Settings.open_of message.now.body) self.old.config }
        ensures time { self.new.time ≡ message.now.head.time }
        ensures early { self.new.early ≡ self.old.early }
        ensures harts { self.new.harts ≡ self.old.harts }
    {
        if let Body::Open(info) = &message.body {
            self.known = info.harts;
            self.config = config_in_flags(info.flags);
        }
        self.time = message.head.time;
    }

    /// Takes message `number` into the table of its hart.
    fn take_hart(&mut self, number: u64, message: &Message, step: &Step) -> Result<(), AllocError>
        requires known { message.now.head.hart < 16 }
        requires fits { Fits message.now }
        ensures kept { OnErr result (IsSame self.old self.new) }
        ensures taken { OnOk result (TakesHart number message.now step.now self.old self.new) }
    {
        match self.harts.get_mut(usize::from(message.head.hart)) {
            Some(table) => table.take(number, message, step),
            None => Ok(()),
        }
    }

    /// Whether a Bypass is early: its instruction has not retired.
    fn is_early(&self, head: &Head) -> bool
        requires { head.now.hart < 16 }
        ensures { (other : HartTable) → result ≡ is_younger (table_in self.now head.now.hart other).last head.now.tag }
    {
        self.harts[usize::from(head.hart)].is_early(head.tag)
    }

    /// Takes message `number` into the early Bypasses, or into the table of its hart.
    fn take_report(&mut self, number: u64, message: &Message, step: &Step) -> Result<(), AllocError>
        requires known { message.now.head.hart < 16 }
        requires fits { Fits message.now }
        ensures kept { OnErr result (IsSame self.old self.new) }
        ensures taken { OnOk result (TakesReport number message.now step.now self.old self.new) }
    {
        match &message.body {
            Body::Bypass(piece) if self.is_early(&message.head) => {
                self.early.push(report_from(number, &message.head, piece))?;
                Ok(())
            }
            _ => self.take_hart(number, message, step),
        }
    }

    /// Drops the early Bypass of an instruction that retires.
    fn drop_early(&mut self, message: &Message)
        ensures known { self.new.known ≡ self.old.known }
        ensures config { self.new.config ≡ self.old.config }
        ensures time { self.new.time ≡ self.old.time }
        ensures harts { self.new.harts ≡ self.old.harts }
        ensures early { reverse self.new.early.items
            ≡ early_dropped (reverse self.old.early.items) message.now.head message.now.body }
    {
        if let Body::Retire(_) = &message.body {
            drop_report(&mut self.early, message.head.hart, message.head.tag);
        }
    }

    /// Takes message `number`, which has no fault.
    fn apply(&mut self, number: u64, message: &Message, step: &Step) -> Result<(), AllocError>
        requires known { message.now.head.hart < 16 }
        requires fits { Fits message.now }
        ensures kept { OnErr result (IsSame self.old self.new) }
        ensures taken { OnOk result (Takes number message.now step.now self.old self.new) }
    {
        self.take_report(number, message, step)?;
        self.drop_early(message);
        self.note(message);
        Ok(())
    }

    /// A copy, which takes memory.
    fn copied(&self, alloc: Global) -> Result<Matching, AllocError>
        ensures { IfOk result (λ made. IsSame self.now made) }
    {
        Ok(Matching {
            known: self.known,
            config: self.config,
            time: self.time,
            early: Vec::from_slice(alloc, self.early.as_slice())?,
            harts: copies(alloc, self.harts.as_slice())?,
        })
    }

    /// A copy, which takes memory and stands for the same messages.
    pub fn copy(&self, alloc: Global) -> Result<Matching, AllocError>
        ensures { (image : Loaded) (before : List Message) → Stands image self.now before →
            IfOk result (λ made. Stands image made before) }
    {
        self.copied(alloc)
    }

    /// What is first wrong with message `number`, None where nothing is. Where that is a Retire, its step
    /// then stands in the place that is lent.
    pub fn first_fault(
        &self,
        image: &Image,
        number: u64,
        message: &Message,
        step: &mut Step,
    ) -> Option<Fault>
        requires { Fits message.now }
        ensures known { IfNone result (message.now.head.hart < 16) }
        ensures fault { (before : List Message) → Stands (loaded_of image.now) self.now before →
            number ≡ number_after before → result ≡ match_fault (loaded_of image.now) before message.now }
        ensures step { (before : List Message) → Stands (loaded_of image.now) self.now before →
            IfNone result (IsStep (loaded_of image.now) before message.now.head message.now.body step.new) }
    {
        let mut found = None;
        match self.check(image, number, message, step, &mut found) {
            Ok(()) => None,
            Err(_faulty) => found,
        }
    }

    /// Takes message `number`, of a hart below 16, which has no fault; a Retire by its step. Where memory is
    /// refused nothing has changed.
    pub fn put(&mut self, number: u64, message: &Message, step: &Step) -> Result<(), AllocError>
        requires known { message.now.head.hart < 16 }
        requires fits { Fits message.now }
        ensures taken { (image : Loaded) (before : List Message) → Stands image self.old before →
            number ≡ number_after before → match_fault image before message.now ≡ None →
            IsStep image before message.now.head message.now.body step.now →
            OnOk result (Stands image self.new (message.now ∷ before)) }
        ensures kept { (image : Loaded) (before : List Message) → Stands image self.old before →
            OnErr result (Stands image self.new before) }
    {
        self.apply(number, message, step)
    }
}

impl Matching {
    ghost use Rattle.std.specs.Prelude.{◌≡◌, ◌<◌, List, map, reverse};
    ghost use Rattle.elf_image.specs.Images.{Loaded};
    ghost use Rattle.msg_frames.specs.declared.message.Message.{Message};
    ghost use Rattle.matching.specs.Reports as Reports;
    ghost use Rattle.matching.specs.Stores.{retired_stores};
    ghost use Rattle.matching.specs.Tables.{Stands, tracked_at};

    /// The live Reads of a hart, in the order in which they came.
    pub fn live(&self, hart: u8) -> &[OpenReport]
        requires { hart < 16 }
        ensures { (image : Loaded) (before : List Message) → Stands image self.now before →
            reverse result.now ≡ Reports.live before hart }
    {
        self.harts[usize::from(hart)].live.as_slice()
    }

    /// The early Bypasses of all harts, in the order in which they came.
    pub fn early(&self) -> &[OpenReport]
        ensures { (image : Loaded) (before : List Message) → Stands image self.now before →
            reverse result.now ≡ Reports.early before }
    {
        self.early.as_slice()
    }

    /// The plain stores of a hart that retired, in the order in which they did, with the fate of each
    /// of their bytes.
    pub fn tracked_stores(&self, hart: u8) -> &[Tracked]
        requires { hart < 16 }
        ensures { (image : Loaded) (before : List Message) → Stands image self.now before →
            reverse result.now ≡ map (tracked_at before hart) (retired_stores image before hart) }
    {
        self.harts[usize::from(hart)].stores.as_slice()
    }
}
