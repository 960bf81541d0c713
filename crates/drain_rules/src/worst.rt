//! The part that is reported: of the least rule, and of that the least in name.

ghost use Rattle.std.specs.Prelude.{◌≡◌};
ghost use Rattle.drain_rules.specs.Answers.{AreOfOneLine, IsBrokenAt, IsLeastOf, lesser_of};
ghost use Rattle.drain_rules.specs.Seen.{IsWorse};

use crate::bound::{Bound, name_of};
use crate::rule::DrainRule;
use crate::seen::Seen;
use merge_buffer::Part;
use store_buffer::Stores;
use tandem_base::OpName;

/// A part with a rule that is broken with it second.
#[derive(Clone, Copy, Debug, PartialEq, Eq)]
pub struct Worst {
    /// The rule.
    pub rule: DrainRule,
    /// Where the part stands.
    pub index: usize,
    /// Its name.
    pub second: OpName,
    /// The stores that the rule puts before it.
    pub bound: Bound,
}

impl Worst {
    ghost use Rattle.drain_rules.specs.Answers.{is_lesser};

    /// Whether it comes before another.
    #[tactic(auto, unfolding(rvwmo_model::specs::Order::named_before))]
    fn is_before(&self, other: &Worst) -> bool
        ensures { result ≡ is_lesser self.now other.now }
    {
        let rule = self.rule.number();
        let others = other.rule.number();
        rule < others || (rule == others && self.second < other.second)
    }
}

/// Of two answers the one that comes first.
fn lesser(one: Option<Worst>, other: Option<Worst>) -> Option<Worst>
    ensures { result ≡ lesser_of one other }
{
    match (one, other) {
        (None, _) => other,
        (Some(_), None) => one,
        (Some(v), Some(w)) => { if w.is_before(&v) { other } else { one } }
    }
}

/// The answer after one part more, which has this index.
fn worse(
    worst: Option<Worst>,
    index: usize,
    hart: u8,
    part: &Part,
    seen: &Seen,
    stores: &Stores,
) -> Option<Worst>
    ensures { IsWorse worst index hart part.now seen.now stores.now result }
{
    let entry = stores.entry(part.tag);
    let second = name_of(hart, part, entry);
    let overlap = seen.answer(DrainRule::Overlap, index, second, part, entry, stores);
    let fence = seen.answer(DrainRule::Fence, index, second, part, entry, stores);
    let release = seen.answer(DrainRule::Release, index, second, part, entry, stores);
    lesser(lesser(lesser(worst, overlap), fence), release)
}

/// The answer for all parts of a message, of which the last performed stands first.
pub fn worst_of(hart: u8, parts: &[Part], stores: &Stores) -> Option<Worst>
    requires { AreOfOneLine parts.now }
    ensures { IsLeastOf (IsBrokenAt hart stores.now parts.now) result }
{
    let mut seen = Seen::new();
    let mut worst = None;
    for (index, part) in parts.iter().enumerate() {
        worst = worse(worst, index, hart, part, &seen, stores);
        seen.note(part);
    }
    worst
}
