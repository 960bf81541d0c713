//! The stores that a rule puts before a part.

ghost use Rattle.std.specs.Prelude.{◌≡◌, find, option_copied};
ghost use Rattle.store_buffer.specs.Waiting.{waiting_below};
ghost use Rattle.drain_rules.specs.Answers.{HasBytesOf, IsBoundOf, IsOverlapBound, IsSized, first_name, is_bounded};
ghost use Rattle.drain_rules.specs.Answers.{part_name, shares};

use crate::rule::DrainRule;
use merge_buffer::Part;
use msg_frames::Piece;
use store_buffer::{Entry, Stores};
use tandem_base::{Extent, OpName};

/// The stores of a hart under a tag below a bound that have a byte in an extent, where one is given.
#[derive(Clone, Copy, Debug, PartialEq, Eq)]
pub struct Bound {
    /// Their tags are below this one.
    pub below: u64,
    /// They have a byte of these, where there are some.
    pub over: Option<Extent>,
}

/// The stores before a part that have one of its bytes.
fn overlap_bound(part: &Part) -> Option<Bound>
    ensures { IsOverlapBound part.now result }
{
    match Extent::new(part.piece.addr, part.piece.bytes.len()) {
        None => None,
        Some(extent) => Some(Bound {
            below: part.tag,
            over: Some(extent),
        }),
    }
}

/// The stores that a rule puts before a part, whose store has this entry; None where it puts none.
pub fn bound_of(rule: DrainRule, part: &Part, entry: Option<&Entry>) -> Option<Bound>
    ensures { IsBoundOf rule part.now (option_copied entry.entry) result }
{
    let entry = match entry {
        None => return None,
        Some(entry) => entry,
    };
    match rule {
        DrainRule::Overlap => overlap_bound(part),
        DrainRule::Fence => match entry.marks.fence {
            None => None,
            Some(fence) => Some(Bound {
                below: fence,
                over: None,
            }),
        },
        DrainRule::Release => {
            if entry.marks.release {
                Some(Bound {
                    below: part.tag,
                    over: None,
                })
            } else {
                None
            }
        }
    }
}

/// The name of a part of a hart, whose store has this entry.
pub fn name_of(hart: u8, part: &Part, entry: Option<&Entry>) -> OpName
    ensures { result ≡ part_name hart part.now (option_copied entry.entry) }
{
    let base = match entry {
        None => part.piece.addr,
        Some(entry) => entry.piece.addr,
    };
    OpName {
        hart,
        tag: part.tag,
        part: (part.piece.addr.saturating_sub(base) % 256) as u8,
    }
}

/// Whether a piece has a byte in an extent.
fn is_over(extent: &Extent, piece: &Piece) -> bool
    ensures { result ≡ shares extent.now piece.now }
{
    let size = u128::from(piece.bytes.len());
    let here = u128::from(piece.addr);
    let there = u128::from(extent.addr);
    size > 0 && there < here + size && here < there + u128::from(extent.len)
}

impl Bound {
    /// Whether a part is of such a store.
    fn has(&self, part: &Part) -> bool
        ensures { result ≡ is_bounded self.now part.now }
    {
        if part.tag >= self.below {
            return false;
        }
        match &self.over {
            None => true,
            Some(extent) => is_over(extent, &part.piece),
        }
    }

    /// The store that waits of the greatest tag.
    pub fn waiting(&self, stores: &Stores) -> Option<OpName>
        ensures { result ≡ waiting_below stores.now.hart stores.now.stores self.now.below self.now.over }
    {
        match &self.over {
            None => stores.waiting(self.below, None),
            Some(extent) => stores.waiting(self.below, Some(extent)),
        }
    }

    /// The first of these parts that is of such a store.
    fn latest<'a>(&self, parts: &'a [Part]) -> Option<&'a Part>
        ensures { option_copied result ≡ find (is_bounded self.now) parts.now }
    {
        for part in parts {
            if self.has(part) {
                return Some(part);
            }
        }
        None
    }

    /// The operation that comes last of all such: a store that waits, else one of the later parts, of which
    /// the last performed stands first.
    pub fn first(&self, hart: u8, later: &[Part], stores: &Stores) -> Option<OpName>
        ensures { result ≡ first_name hart stores.now later.now self.now }
    {
        match self.waiting(stores) {
            Some(name) => Some(name),
            None => match self.latest(later) {
                None => None,
                Some(part) => Some(name_of(hart, part, stores.entry(part.tag))),
            },
        }
    }
}
