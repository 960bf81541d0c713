//! What is first wrong with a message of a hart, by the hart's table.

ghost use Rattle.std.specs.Prelude.{◌≡◌, ◌<◌};
ghost use Rattle.std.specs.Prelude.{reverse, IsSome, OnErr, OnOk};
ghost use Rattle.elf_image.specs.Images.{loaded_of};
ghost use Rattle.msg_frames.specs.Frames.{Fits};
ghost use Rattle.rv_step.specs.Plans.{doing_seen, plan_seen};
ghost use Rattle.tandem_base.specs.FirstFault.{passed, ◌or_else◌};
ghost use Rattle.matching.specs.Checks.{Checks};
ghost use Rattle.matching.specs.Runs as Runs;
ghost use Rattle.matching.specs.PartFaults as Parts;
ghost use Rattle.matching.specs.RetireFaults.{retire_fault_in, loaded_fault_in, effect_fault_in, register_fault_of};
ghost use Rattle.matching.specs.Tables as Tables;

use super::HartTable;
use crate::checks::{
    check_bypass_range, check_insert_range, check_late, check_merge, check_part, check_poke,
    check_read_range, check_second,
};
use crate::compare::{
    check_csrs, check_next, check_pc, check_rd, check_tag, check_trap, check_word,
};
use crate::faulty::Faulty;
use crate::reports::{OpenReport, early_into, early_of};
use crate::retire::{
    check_amo, check_bypass, check_missing, check_pair, check_stray, check_torn, loaded, rd_want,
};
use crate::step::Step;
use crate::stores::{earliest_open, store_under};
use elf_image::Image;
use msg_frames::{Body, Head, Message, Piece, Poke, Retire};
use rv_step::{Config, Effect, Outside, What};
use tandem_base::Origin;
use verdict_report::Fault;

impl HartTable {
    /// The faults of an Insert, in their order.
    fn check_insert(
        &self,
        image: &Image,
        tag: u64,
        piece: &Piece,
        found: &mut Option<Fault>,
    ) -> Result<(), Faulty>
        ensures { Checks (Parts.insert_range_fault (loaded_of image.now) piece.now
            or_else Tables.tracked_fault piece.now (Tables.tracked_under tag (Tables.table_of self.now).stores))
            result found.new }
    {
        check_insert_range(image, piece, found)?;
        check_part(piece, &store_under(&self.stores, tag), found)
    }

    /// The faults of a Bypass, in their order.
    fn check_bypass(
        &self,
        image: &Image,
        early: &[OpenReport],
        head: &Head,
        piece: &Piece,
        found: &mut Option<Fault>,
    ) -> Result<(), Faulty>
        ensures { Checks (Parts.bypass_range_fault (loaded_of image.now) piece.now
            or_else Tables.bypass_fault_in (reverse early.now) (Tables.table_of self.now) head.now piece.now)
            result found.new }
    {
        check_bypass_range(image, piece, found)?;
        if self.is_early(head.tag) {
            check_second(head.tag, &early_of(early, head.hart, head.tag), found)
        } else {
            check_part(piece, &store_under(&self.stores, head.tag), found)
        }
    }

    /// What the model takes from the reports.
    fn outside(
        &self,
        bypass: &Option<OpenReport>,
        tag: u64,
        retire: &Retire,
        what: &What,
    ) -> Outside
        ensures { result
            ≡ Runs.outside_of (reverse self.now.live.items) bypass.now tag retire.now (doing_seen what.now) }
    {
        Outside {
            load: loaded(&self.live, tag, what),
            stored: bypass.is_some(),
            reported: retire.rd.map_or(0, |rd| rd.value),
        }
    }

    /// Works out the step of a Retire.
    fn step_into(
        &self,
        image: &Image,
        config: &Config,
        early: &[OpenReport],
        head: &Head,
        retire: &Retire,
        step: &mut Step,
    )
        ensures { Tables.TableStepIs (loaded_of image.now) config.now (reverse early.now) (Tables.table_of self.now)
            head.now retire.now step.new }
    {
        self.hart.plan_into(image, config, &mut step.plan);
        early_into(early, head.hart, head.tag, &mut step.bypass);
        let outside = self.outside(&step.bypass, head.tag, retire, &step.plan.what);
        self.hart
            .effect_into(&step.plan, &outside, &mut step.effect);
    }

    /// The register is what is wanted of it.
    #[tactic(auto, unfolding(crate::specs::RetireFaults::register_fault_of))]
    fn check_register(
        &self,
        retire: &Retire,
        what: &What,
        effect: &Effect,
        stored: bool,
        found: &mut Option<Fault>,
    ) -> Result<(), Faulty>
        ensures { Checks (register_fault_of (doing_seen what.now) stored self.now.clocks effect.now.rd
            retire.now.rd) result found.new }
    {
        check_rd(
            rd_want(what, stored, &self.clocks, effect.rd),
            &retire.rd,
            found,
        )
    }

    /// The faults of what an instruction did, in their order.
    #[tactic(auto, unfolding(crate::specs::RetireFaults::effect_fault_in))]
    fn check_effect(
        &self,
        retire: &Retire,
        what: &What,
        effect: &Effect,
        bypass: &Option<OpenReport>,
        found: &mut Option<Fault>,
    ) -> Result<(), Faulty>
        ensures { Checks (effect_fault_in (Tables.table_of self.now).run retire.now (doing_seen what.now)
            effect.now bypass.now) result found.new }
    {
        check_next(effect.next, retire.next, found)?;
        self.check_register(retire, what, effect, bypass.is_some(), found)?;
        check_csrs(&effect.csrs, &retire.csrs, found)?;
        check_amo(what, &effect.store, bypass, found)?;
        check_pair(&self.pair, bypass.is_some(), what, found)
    }

    /// The faults of what an instruction loaded and did, in their order.
    fn check_loaded(
        &self,
        head: &Head,
        retire: &Retire,
        step: &Step,
        found: &mut Option<Fault>,
    ) -> Result<(), Faulty>
        ensures { Checks (loaded_fault_in (Tables.table_of self.now).run (reverse self.now.live.items)
            head.now retire.now (doing_seen step.now.plan.what) step.now.effect step.now.bypass) result found.new }
    {
        let Step {
            plan,
            effect,
            bypass,
        } = step;
        check_missing(&self.live, head.tag, &plan.what, found)?;
        check_torn(&self.live, head.tag, &plan.what, found)?;
        check_bypass(bypass, &plan.what, found)?;
        self.check_effect(retire, &plan.what, effect, bypass, found)
    }

    /// The faults of a Retire but that of its tag, in their order.
    #[tactic(auto, unfolding(crate::specs::RetireFaults::retire_fault_in))]
    fn check_reported(
        &self,
        early: &[OpenReport],
        head: &Head,
        retire: &Retire,
        step: &Step,
        found: &mut Option<Fault>,
    ) -> Result<(), Faulty>
        ensures { Checks (retire_fault_in (Tables.table_of self.now).run (reverse self.now.live.items)
            (reverse early.now) head.now retire.now (plan_seen step.now.plan) step.now.effect step.now.bypass)
            result found.new }
    {
        check_stray(&step.plan.what, head.hart, head.tag, early, found)?;
        check_pc(self.hart.pc(), retire.pc, found)?;
        check_word(step.plan.word, retire.word, found)?;
        check_trap(step.effect.trap, retire.trap, found)?;
        self.check_loaded(head, retire, step, found)
    }

    /// The faults of a Retire, in their order.
    fn check_retire(
        &self,
        image: &Image,
        config: &Config,
        early: &[OpenReport],
        head: &Head,
        retire: &Retire,
        step: &mut Step,
        found: &mut Option<Fault>,
    ) -> Result<(), Faulty>
        ensures fault { Checks (Tables.table_retire_fault (loaded_of image.now) config.now (reverse early.now)
            (Tables.table_of self.now) head.now retire.now) result found.new }
        ensures step { OnOk result (Tables.TableStepIs (loaded_of image.now) config.now (reverse early.now)
            (Tables.table_of self.now) head.now retire.now step.new) }
    {
        check_tag(self.last, head.tag, found)?;
        self.step_into(image, config, early, head, retire, step);
        self.check_reported(early, head, retire, step, found)
    }

    /// What is first wrong with a message of the hart. That of the End is of all harts.
    pub fn check(
        &self,
        image: &Image,
        config: &Config,
        early: &[OpenReport],
        message: &Message,
        step: &mut Step,
        found: &mut Option<Fault>,
    ) -> Result<(), Faulty>
        requires { Fits message.now }
        ensures refused { OnErr result (IsSome found.new) }
        ensures step { OnOk result (Tables.IsTableStep (loaded_of image.now) config.now (reverse early.now)
            (Tables.table_of self.now) message.now.head message.now.body step.new) }
        ensures fault { Checks (Tables.table_fault (loaded_of image.now) config.now (reverse early.now)
            (Tables.table_of self.now) message.now.head message.now.body) result found.new }
    {
        let head = &message.head;
        match &message.body {
            Body::Poke(_) => check_poke(self.last, found),
            Body::Read(piece) => {
                check_late(self.last, head.tag, found)?;
                check_read_range(piece, found)
            }
            Body::Insert(piece) => self.check_insert(image, head.tag, piece, found),
            Body::Write(write) => check_merge(&self.inserts, write, found),
            Body::Bypass(piece) => self.check_bypass(image, early, head, piece, found),
            Body::Retire(retire) => self.check_retire(
                image, config, early, head, retire, step, found,
            ),
            Body::Open(_) | Body::Squash | Body::End => Ok(()),
        }
    }

    /// The earliest store of the hart that isn't performed, with its lowest such byte.
    pub fn check_written(&self, hart: u8) -> Result<(), Fault>
        ensures { result ≡ passed (Tables.left_fault hart (Tables.table_of self.now)) }
    {
        let Some(tracked) = earliest_open(&self.stores) else {
            return Ok(());
        };
        match tracked.first_open() {
            Some(k) => Err(Fault::Unwritten {
                store: Origin {
                    hart,
                    tag: tracked.store.tag,
                },
                at: tracked.store.piece.addr.wrapping_add(u64::from(k)),
            }),
            None => Ok(()),
        }
    }
}
