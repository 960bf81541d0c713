//! Whose turn it is, and what is said in it.

ghost use Rattle.std.specs.Prelude.{◌≡◌, ◌<◌, ◌≤◌, ◌+◌, ◌*◌, ◌^◌, length, slice_index, slice_index_or, List};
ghost use Rattle.std.specs.Int.{w64, to_le_bytes};
ghost use Rattle.trace_gen.specs.Rounds.{first_progress, low_half_of};
ghost use Rattle.trace_gen.specs.Schedule.{harts_left, next_random};

use super::image::{COUNTER_ADDR, own_addr};
use super::rounds::{Progress, Step, counted};
use super::saying::{
    Saying, bypasses, ends, inserts, opens, pokes, reads, retires, writes, writes_front,
};
use msg_frames::{Head, Message, MessageList};
use std::alloc::{AllocError, Global};
use std::marker::Model;
use tandem_base::{Bytes8, sext};

/// Where a run stands.
#[derive(Debug, Drop)]
pub struct Run {
    random: u64,
    counter: u64,
    harts: Vec<Progress>,
    messages: MessageList,
}

impl Model for Run {
    ghost use Rattle.std.specs.Prelude.{reverse};
    ghost use Rattle.trace_gen.specs.Schedule.{Moment};

    ghost Value = { Moment };

    ghost view = { λ run. record {
      random = run.random;
      counter = run.counter;
      harts = run.harts.items;
      messages = reverse run.messages;
    } };
}

impl Run {
    ghost use Rattle.std.specs.Prelude.{◌≡◌, ◌<◌, ◌≤◌, ◌+◌, ◌^◌, length, OnOk, IfOk, slice_index_or, reverse};
    ghost use Rattle.trace_gen.specs.declared.rounds.Progress.{Progress};
    ghost use Rattle.trace_gen.specs.Rounds.{first_progress, sayings_at};
    ghost use Rattle.trace_gen.specs.Schedule.{said, all_said, harts_left, stepped, turned};
    ghost use Rattle.trace_gen.specs.Making.{before_turns, ends, opened, registers_of};

    /// A run of so many harts before its first turn.
    pub fn open(alloc: Global, seed: u64, harts: u8) -> Result<Run, AllocError>
        ensures { IfOk result (λ run. run ≡ before_turns seed harts) }
    {
        let mut run = Run {
            random: seed,
            counter: 0,
            harts: Vec::from_elem(alloc, Progress::START, harts as usize)?,
            messages: MessageList::new(alloc),
        };
        run.say(0, opens(harts))?;
        for hart in 0..harts {
            run.say_registers(hart)?;
        }
        Ok(run)
    }

    /// The messages, with the End.
    pub fn close(mut self) -> Result<MessageList, AllocError>
        ensures { IfOk result (λ messages. messages ≡ reverse (said 0 self.messages ends)) }
    {
        self.say(0, ends())?;
        let Run { messages, .. } = self;
        Ok(messages)
    }

    // The registers of a hart are set.
    fn say_registers(&mut self, hart: u8) -> Result<(), AllocError>
        ensures { OnOk result (self.new ≡ record self.old {
          messages = all_said hart self.old.messages (registers_of hart);
        }) }
    {
        self.say(hart, pokes(10, COUNTER_ADDR))?;
        self.say(hart, pokes(11, own_addr(hart)))?;
        self.say(hart, pokes(12, 1))
    }

    /// A turn: the hart that the next random number chooses takes its next step.
    pub fn turn(&mut self, rounds: u32) -> Result<(), AllocError>
        requires harts { length self.old.harts ≤ 16 }
        requires left { 0 < length (harts_left rounds 0 self.old.harts) }
        requires counter { self.old.counter + 1 < 2 ^ 64 }
        ensures { OnOk result (self.new ≡ turned rounds self.old) }
    {
        self.random = next_random(self.random);
        let left = count_left(&self.harts, rounds);
        let index = (self.random >> 33) as usize % left;
        let hart = find_left(&self.harts, rounds, index);
        self.step(hart as u8)
    }

    // The next step of a hart.
    fn step(&mut self, hart: u8) -> Result<(), AllocError>
        requires hart { hart < length self.old.harts }
        requires round { (slice_index_or self.old.harts hart first_progress).round + 1 < 2 ^ 32 }
        requires counter { self.old.counter + 1 < 2 ^ 64 }
        ensures { OnOk result (self.new ≡ stepped hart self.old) }
    {
        let at = self.harts[hart as usize];
        self.say_step(hart, &at)?;
        self.harts[hart as usize] = at.moved(self.counter);
        self.counter = counted(at.step, self.counter);
        Ok(())
    }

    // Says what a hart says at its next step.
    fn say_step(&mut self, hart: u8, at: &Progress) -> Result<(), AllocError>
        requires { self.old.counter + 1 < 2 ^ 64 }
        ensures { OnOk result (self.new ≡ record self.old {
          messages = all_said hart self.old.messages (sayings_at at.now.step hart self.old.counter at.now);
        }) }
    {
        let own = own_addr(hart);
        let round = at.round;
        match at.step {
            Step::ReadAhead => self.say(hart, reads(round, 5, own, whole(at.written))),
            Step::ReadCounter => self.say(hart, reads(round, 0, COUNTER_ADDR, whole(self.counter))),
            Step::RetireRead => self.say(hart, retires(round, 0, writes(5, at.taken))),
            Step::RetireStore => self.say(hart, retires(round, 1, None)),
            Step::ForwardStore => self.say_forward(hart, at),
            Step::InsertStore => self.say(hart, inserts(round, 1, own, whole(at.taken))),
            Step::WriteStore => self.say(hart, writes_front(own, at.taken)),
            Step::AddOne => self.say_add(hart, round),
            Step::RetireAdd => self.say(hart, retires(round, 3, writes(6, at.added))),
            Step::RetireFence => self.say(hart, retires(round, 4, None)),
            Step::ReadAgain => self.say(hart, reads(round, 5, own, whole(at.taken))),
            Step::RetireReadAgain => self.say(hart, retires(round, 5, writes(8, at.taken))),
            Step::RetireJump => self.say(hart, retires(round, 6, None)),
        }
    }

    // The second load reads what the store has still to write, and retires.
    fn say_forward(&mut self, hart: u8, at: &Progress) -> Result<(), AllocError>
        requires { at.now.step ≡ Step.ForwardStore }
        ensures { OnOk result (self.new ≡ record self.old {
          messages = all_said hart self.old.messages (sayings_at at.now.step hart self.old.counter at.now);
        }) }
    {
        self.say(hart, reads(at.round, 2, own_addr(hart), low_half(at.taken)))?;
        self.say(hart, retires(at.round, 2, writes(9, sext(at.taken, 32))))
    }

    // The amoadd reads the counter, and makes it one more.
    fn say_add(&mut self, hart: u8, round: u32) -> Result<(), AllocError>
        requires { self.old.counter + 1 < 2 ^ 64 }
        ensures { (at : Progress) → at.round ≡ round → OnOk result (self.new ≡ record self.old {
          messages = all_said hart self.old.messages (sayings_at Step.AddOne hart self.old.counter at);
        }) }
    {
        self.say(hart, reads(round, 3, COUNTER_ADDR, whole(self.counter)))?;
        self.say(
            hart,
            bypasses(round, 3, COUNTER_ADDR, whole(self.counter + 1)),
        )
    }

    // A hart says something.
    fn say(&mut self, hart: u8, saying: Saying) -> Result<(), AllocError>
        ensures { OnOk result (self.new ≡ record self.old { messages = said hart self.old.messages saying }) }
    {
        let Saying { tag, body } = saying;
        let head = Head {
            hart,
            time: self.messages.len() as u64,
            tag,
        };
        self.messages.push(Message { head, body })
    }
}

// The random number after this one.
fn next_random(random: u64) -> u64
    ensures { result ≡ next_random random }
{
    random
        .wrapping_mul(6_364_136_223_846_793_005)
        .wrapping_add(1_442_695_040_888_963_407)
}

// How many harts have steps left.
fn count_left(harts: &[Progress], rounds: u32) -> usize
    ensures { result ≡ length (harts_left rounds 0 harts.now) }
{
    let mut left = 0;
    for progress in harts {
        if progress.round < rounds {
            left += 1;
        }
    }
    left
}

// The hart at this place among those with steps left.
fn find_left(harts: &[Progress], rounds: u32, place: usize) -> usize
    requires { place < length (harts_left rounds 0 harts.now) }
    ensures value { result ≡ slice_index (harts_left rounds 0 harts.now) place }
    ensures bound { result < length harts.now }
    ensures left { (slice_index_or harts.now result first_progress).round < rounds }
{
    let mut before = place;
    for (hart, progress) in harts.iter().enumerate() {
        if progress.round < rounds {
            if before == 0 {
                return hart;
            }
            before -= 1;
        }
    }
    unreachable!()
}

// The bytes of a number.
fn whole(value: u64) -> Bytes8
    ensures { result ≡ to_le_bytes w64 value }
{
    match Bytes8::new(&value.to_le_bytes()) {
        Some(bytes) => bytes,
        None => unreachable!(),
    }
}

// The low half of them.
fn low_half(value: u64) -> Bytes8
    ensures { result ≡ low_half_of value }
{
    match Bytes8::new(&value.to_le_bytes()[..4]) {
        Some(bytes) => bytes,
        None => unreachable!(),
    }
}
