//! The step of a hart at its Retire.

ghost use Rattle.std.specs.Prelude.{◌≡◌, ◌%◌};
ghost use Rattle.matching.specs.StepProps.{WritesRegister, register_prop};

use super::reports::OpenReport;
use rv_step::{Effect, Plan, What};

/// What a hart's next instruction is to do, what it does as the model has it, and its early Bypass, if it
/// has one. A place that is written anew at each Retire.
#[derive(Debug, Drop)]
pub struct Step {
    /// What the instruction is to do.
    pub plan: Plan,
    /// What it does.
    pub effect: Effect,
    /// Its early Bypass.
    pub bypass: Option<OpenReport>,
    ghost next: { effect.next % 4 ≡ 0 },
    ghost register: { WritesRegister effect.rd } by { register_prop effect.rd },
}

impl Step {
    ghost use Rattle.std.specs.Prelude.{◌≡◌, None};
    ghost use Rattle.rv_step.specs.Steps.{reports};
    ghost use Rattle.rv_step.specs.declared.plan.What.TheVariants.{Trap};

    /// A place for a step: of no instruction yet. It reads as a trap at a word of 0, which does nothing.
    pub fn new() -> Step
        ensures plan { result.plan ≡ record { word = 0; what = Trap 0 0 } }
        ensures effect { result.effect ≡ reports 0 None }
        ensures bypass { result.bypass ≡ None }
    {
        Step {
            plan: Plan {
                word: 0,
                what: What::Trap { cause: 0, value: 0 },
            },
            effect: Effect::new(),
            bypass: None,
        }
    }
}
