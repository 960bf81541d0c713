//! What a hart becomes by a report.

ghost use Rattle.std.specs.Prelude.{◌≡◌, ◌%◌, ◌<◌, IfSome};
ghost use Rattle.elf_image.specs.Images.{Loaded};
ghost use Rattle.rv_step.specs.declared.effect.Outside.{Outside};
ghost use Rattle.rv_step.specs.declared.plan.Config.{Config};
ghost use Rattle.rv_step.specs.Plans.{IsPlan, Step, doing_seen, plan_of, plan_seen};
ghost use Rattle.rv_step.specs.Steps.{Doing, IsLoaded, committed, csrs_set, finished};

use super::Hart;
use crate::effect::{Effect, Outside};
use crate::plan::Plan;
use csr_file::Csrs;
use msg_frames::CsrList;

impl Hart {
    /// Does what this hart's plan says: the effect is what the instruction reports. A load, LR or
    /// AMO needs the loaded bytes, as many as its extent has.
    pub fn finish(&mut self, plan: &Plan, outside: &Outside) -> Effect
        requires planned { IsPlan self.old plan.now }
        requires loaded { IsLoaded outside.now (doing_seen plan.now.what) }
        ensures hart { self.new ≡ (finished self.old outside.now (doing_seen plan.now.what)).hart }
        ensures effect { result ≡ (finished self.old outside.now (doing_seen plan.now.what)).effect }
        ensures step { (image : Loaded) (config : Config) → plan_seen plan.now ≡ plan_of self.old image config
            → record { hart = self.new; effect = result } ≡ Step self.old image config outside.now }
    {
        let mut effect = Effect::new();
        self.effect_into(plan, outside, &mut effect);
        self.commit(&effect);
        effect
    }

    /// Becomes what a report says, as `effect_into` works it out: its pc, its register, its CSRs, and one
    /// more retired where it isn't a trap.
    pub fn commit(&mut self, effect: &Effect)
        requires next { effect.now.next % 4 ≡ 0 }
        requires rd { IfSome effect.now.rd (λ rd. (0 < rd.number) × (rd.number < 32)) }
        ensures value { self.new ≡ committed self.old effect.now }
        ensures step { (outside : Outside) (doing : Doing) → effect.now ≡ (finished self.old outside doing).effect
            → self.new ≡ (finished self.old outside doing).hart }
    {
        self.set_to(effect);
    }

    /// Becomes what a report says.
    fn set_to(&mut self, effect: &Effect)
        requires next { effect.now.next % 4 ≡ 0 }
        requires rd { IfSome effect.now.rd (λ rd. (0 < rd.number) × (rd.number < 32)) }
        ensures { self.new ≡ committed self.old effect.now }
    {
        self.pc = effect.next;
        if let Some(rd) = effect.rd {
            self.registers[rd.number as usize] = rd.value;
        }
        write_each(&mut self.csrs, &effect.csrs);
        if effect.trap.is_none() {
            self.retired = self.retired.wrapping_add(1);
        }
    }
}

/// Writes the CSRs of a list, in its order.
fn write_each(csrs: &mut Csrs, list: &CsrList)
    ensures { csrs.new ≡ csrs_set csrs.old list.now }
{
    for k in 0..list.len() {
        let Some(item) = list.get(k) else {
            unreachable!()
        };
        csrs.write(item.number, item.value);
    }
}
