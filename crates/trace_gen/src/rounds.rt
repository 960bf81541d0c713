//! How far a hart is.

ghost use Rattle.std.specs.Prelude.{◌≡◌, ◌<◌, ◌^◌, ◌+◌};
ghost use Rattle.trace_gen.specs.Rounds.{first_progress, counted_by, moved_by};

/// The steps of a round.
#[derive(Clone, Copy, Debug, PartialEq, Eq)]
pub enum Step {
    /// The last load reads ahead of all that comes before it.
    ReadAhead,
    /// The first load reads the counter that all harts share.
    ReadCounter,
    /// It retires.
    RetireRead,
    /// The store of what it read retires.
    RetireStore,
    /// The second load reads what the store has still to write, and retires.
    ForwardStore,
    /// The store goes into the merge buffer.
    InsertStore,
    /// Its line becomes visible.
    WriteStore,
    /// The amoadd reads the counter, and makes it one more.
    AddOne,
    /// It retires.
    RetireAdd,
    /// The fence retires.
    RetireFence,
    /// The last load reads again, in its turn.
    ReadAgain,
    /// It retires.
    RetireReadAgain,
    /// The jump to the first instruction retires.
    RetireJump,
}

/// How far a hart is.
#[derive(Clone, Copy, Debug)]
pub struct Progress {
    /// How many rounds are behind it.
    pub round: u32,
    /// The next step.
    pub step: Step,
    /// What the first load of the round read.
    pub taken: u64,
    /// What the amoadd of the round read.
    pub added: u64,
    /// The hart's own number, as the last Write left it.
    pub written: u64,
}

impl Progress {
    /// A hart before its first step.
    pub const START: Progress = Progress {
        round: 0,
        step: Step::ReadAhead,
        taken: 0,
        added: 0,
        written: 0,
    };

    /// A hart after its next step, where the shared counter is `counter`.
    pub fn moved(self, counter: u64) -> Progress
        requires { self.round + 1 < 2 ^ 32 }
        ensures { result ≡ moved_by self.step counter self }
    {
        match self.step {
            Step::ReadAhead => self.at(Step::ReadCounter),
            Step::ReadCounter => Progress {
                taken: counter,
                ..self.at(Step::RetireRead)
            },
            Step::RetireRead => self.at(Step::RetireStore),
            Step::RetireStore => self.at(Step::ForwardStore),
            Step::ForwardStore => self.at(Step::InsertStore),
            Step::InsertStore => self.at(Step::WriteStore),
            Step::WriteStore => Progress {
                written: self.taken,
                ..self.at(Step::AddOne)
            },
            Step::AddOne => Progress {
                added: counter,
                ..self.at(Step::RetireAdd)
            },
            Step::RetireAdd => self.at(Step::RetireFence),
            Step::RetireFence => self.at(Step::ReadAgain),
            Step::ReadAgain => self.at(Step::RetireReadAgain),
            Step::RetireReadAgain => self.at(Step::RetireJump),
            Step::RetireJump => Progress {
                round: self.round + 1,
                ..self.at(Step::ReadAhead)
            },
        }
    }

    // The same hart at another step.
    fn at(self, step: Step) -> Progress
        ensures { result ≡ record self { step = step } }
    {
        Progress { step, ..self }
    }
}

/// The shared counter after a step.
pub fn counted(step: Step, counter: u64) -> u64
    requires { counter + 1 < 2 ^ 64 }
    ensures { result ≡ counted_by step counter }
{
    match step {
        Step::AddOne => counter + 1,
        _ => counter,
    }
}
