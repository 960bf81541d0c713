//! Kept operations beside a plain list of them.

ghost use Rattle.std.specs.Prelude.{◌<◌};

use crate::kept_runs::operation;
use kept_ops::{Kept, KeptOp};
use speed_runs::Random;
use std::alloc::{AllocError, Global};
use tandem_base::{Position, Took};

/// How many operations may be kept.
const CAPACITY: u32 = 12;

/// A table, and the operations that are kept.
#[derive(Drop)]
struct Beside {
    kept: Kept,
    ops: Vec<KeptOp>,
}

/// How many answers of calls at random differ from those of the list.
pub(crate) fn differences(alloc: Global, seed: u64, calls: u32) -> Result<u64, AllocError> {
    let mut random = Random::new(seed);
    let mut beside = Beside {
        kept: Kept::new(alloc, CAPACITY)?,
        ops: Vec::new(alloc),
    };
    let mut count: u64 = 0;
    for _ in 0..calls {
        let agrees = match random.below(4) {
            0 => beside.prunes(&mut random),
            _ => beside.keeps(&mut random)?,
        };
        if !agrees {
            count = count.wrapping_add(1);
        }
    }
    Ok(count)
}

/// A place at random.
fn place(random: &mut Random) -> Position {
    Position {
        message: random.below(40) as u32,
        insert: random.below(3) as u32,
    }
}

impl Beside {
    /// Keeps an operation at random, and says whether the answer is the list's.
    fn keeps(&mut self, random: &mut Random) -> Result<bool, AllocError> {
        let Some(mut op) = operation() else {
            return Ok(false);
        };
        op.name.tag = random.below(1000);
        op.place = place(random);
        let due = if self.ops.len() >= CAPACITY as usize {
            Took::Full(CAPACITY)
        } else {
            self.ops.push(op)?;
            Took::Yes
        };
        Ok(self.kept.keep(&op) == due && self.is_same())
    }

    /// Prunes at a place at random, or at none, and says whether as many are left as in the list.
    fn prunes(&mut self, random: &mut Random) -> bool {
        let oldest = if random.below(8) == 0 {
            None
        } else {
            Some(place(random))
        };
        self.kept.prune(oldest);
        match oldest {
            None => self.ops.clear(),
            Some(oldest) => self.ops.retain(|op| oldest.is_before(&op.place)),
        }
        self.is_same()
    }

    /// Whether as many operations are kept as the list has.
    fn is_same(&self) -> bool {
        self.kept.count() == self.ops.len()
    }
}
