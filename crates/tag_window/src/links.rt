//! Slots, linked under each tag from the newest back.

ghost use Rattle.std.specs.Prelude.{◌≡◌, ◌≢◌, ◌+◌, ℕ, List, length, Some, None, IsSome};
ghost use Rattle.slab.specs.Slab.{get, slab_len};
ghost use Rattle.tag_window.specs.declared.order.Arrival.{Arrival as Item};
ghost use Rattle.tag_window.specs.Order.{PlacesFall, IsTagChain, IsTagChained, Freed};

use slab::Slab;
use tandem_base::Position;

/// A slot that is taken: the place of its report, and the slot of the next older one under its tag.
#[derive(Clone, Copy, Debug)]
pub struct Link {
    pub place: Position,
    pub older: Option<usize>,
}

/// A slot that is taken.
pub fn link_at(links: &Slab<Link>, at: usize) -> &Link
    requires { IsSome (get links.now at) }
    ensures { get links.now at ≡ Some result.now }
{
    match links.get(at) {
        Some(link) => link,
        None => unreachable!(),
    }
}

/// Frees the slots to which the links lead.
pub fn free(links: &mut Slab<Link>, head: Option<usize>)
    requires { IsTagChained (get links.old) head }
    ensures freed { (cs : List Item) → IsTagChain (get links.old) head cs → PlacesFall cs →
        Freed (get links.old) (get links.new) cs }
    ensures count { (cs : List Item) → IsTagChain (get links.old) head cs → PlacesFall cs →
        slab_len links.new + length cs ≡ slab_len links.old }
    ensures capacity { links.new.capacity ≡ links.old.capacity }
{
    let mut at = head;
    while let Some(slot) = at {
        let link = links.remove(slot);
        at = link.older;
    }
}
