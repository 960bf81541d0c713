//! The operation of the least name.

ghost use Rattle.std.specs.Prelude.{◌≡◌};
ghost use Rattle.rvwmo_model.specs.Answer;
ghost use Rattle.rvwmo_model.specs.Search;

use crate::operations::Op;

#[tactic(auto, unfolding(crate::specs::Order::named_before))]
fn is_named_first(a: &Op, b: &Op) -> bool
    ensures { result ≡ Answer.is_named_first a.now b.now }
{
    let (m, n) = (a.name, b.name);
    m.hart < n.hart || m.hart == n.hart && (m.tag < n.tag || m.tag == n.tag && m.part < n.part)
}

/// The operation of the lesser name, the first where there is no other.
pub fn least(best: Option<Op>, o: &Op) -> Option<Op>
    ensures { result ≡ Search.better_of Answer.is_named_first best o.now }
{
    match best {
        None => Some(*o),
        Some(v) => {
            if is_named_first(o, &v) {
                Some(*o)
            } else {
                Some(v)
            }
        }
    }
}
