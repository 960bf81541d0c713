//! Places that wait in rows, linked in the order of their tags.

ghost use Rattle.std.specs.Prelude.{◌≡◌, ◌≢◌, ◌+◌, ◌<◌, ℕ, length, Option, Some, None, IsSome, slice_index_or};
ghost use Rattle.std.specs.Prelude.{if◌then◌else◌, ◌==◌, IfSome};
ghost use Rattle.byte_rows.specs.declared.links.Link.{Link as Linked};
ghost use Rattle.byte_rows.specs.Links.{at, row_mark_at, is_place, is_none, IsRow, IsThere, StaysElsewhere};
ghost use Rattle.byte_rows.specs.Links.{with_older, with_newer, IsEdge, older, newer, any, waiter_of};
ghost use Rattle.std.specs.Prelude.{◌≤◌, vec_capacity, is_some};
ghost use Rattle.std.specs.Bool.{OnTrue};

use crate::waiter::Waiter;

/// A place that waits in a row: its tag, and the places next to it in that row.
#[derive(Clone, Copy, Debug)]
pub struct Link {
    pub row: u64,
    pub tag: u64,
    pub older: Option<usize>,
    pub newer: Option<usize>,
}

/// The places of least and of greatest tag in a row.
#[derive(Clone, Copy, Debug)]
pub struct Ends {
    pub oldest: Option<usize>,
    pub newest: Option<usize>,
}

/// The link of a place that waits.
pub fn link_at(links: &[Option<Link>], place: usize) -> Link
    requires { IsSome (at links.now place) }
    ensures { at links.now place ≡ Some result }
{
    match links[place] {
        Some(link) => link,
        None => unreachable!(),
    }
}

/// Whether a place waits.
pub fn waits(links: &[Option<Link>], place: usize) -> bool
    ensures { result ≡ is_some (at links.now place) }
{
    place < links.len() && links[place].is_some()
}

/// Links a place to its next newer one; where there is no place, the row begins with that.
fn set_newer(
    links: &mut [Option<Link>],
    ends: &mut Ends,
    place: Option<usize>,
    newer: Option<usize>,
)
    requires { IsThere links.old place }
    ensures links { (j : ℕ) → at links.new j
        ≡ (if is_place place j then with_newer newer (at links.old j) else at links.old j) }
    ensures oldest { ends.new.oldest ≡ (if is_none place then newer else ends.old.oldest) }
    ensures newest { ends.new.newest ≡ ends.old.newest }
    ensures len { length links.new ≡ length links.old }
{
    match place {
        None => ends.oldest = newer,
        Some(i) => {
            let link = link_at(links, i);
            links[i] = Some(Link { newer, ..link });
        }
    }
}

/// Links a place to its next older one; where there is no place, the row ends with that.
fn set_older(
    links: &mut [Option<Link>],
    ends: &mut Ends,
    place: Option<usize>,
    older: Option<usize>,
)
    requires { IsThere links.old place }
    ensures links { (j : ℕ) → at links.new j
        ≡ (if is_place place j then with_older older (at links.old j) else at links.old j) }
    ensures newest { ends.new.newest ≡ (if is_none place then older else ends.old.newest) }
    ensures oldest { ends.new.oldest ≡ ends.old.oldest }
    ensures len { length links.new ≡ length links.old }
{
    match place {
        None => ends.newest = older,
        Some(i) => {
            let link = link_at(links, i);
            links[i] = Some(Link { older, ..link });
        }
    }
}

/// A place begins to wait in a row, as its newest.
pub fn append(links: &mut [Option<Link>], ends: &mut Ends, place: usize, row: u64, tag: u64)
    requires within { place < length links.old }
    requires vacant { at links.old place ≡ None }
    requires row { IsRow (at links.old) row ends.old }
    requires newest { (j t : ℕ) → row_mark_at (at links.old) j ≡ Some (row, t) → t < tag }
    ensures row { IsRow (at links.new) row ends.new }
    ensures there { row_mark_at (at links.new) place ≡ Some (row, tag) }
    ensures others { (j : ℕ) → j ≢ place → row_mark_at (at links.new) j ≡ row_mark_at (at links.old) j }
    ensures elsewhere { StaysElsewhere (at links.old) (at links.new) row }
    ensures len { length links.new ≡ length links.old }
{
    let older = ends.newest;
    set_newer(links, ends, older, Some(place));
    ends.newest = Some(place);
    links[place] = Some(Link {
        row,
        tag,
        older,
        newer: None,
    });
}

/// A place waits in its row no longer.
pub fn unlink(links: &mut [Option<Link>], ends: &mut Ends, place: usize, row: u64)
    requires there { (n : Linked) × (at links.old place ≡ Some n) × (n.row ≡ row) }
    requires row { IsRow (at links.old) row ends.old }
    ensures row { IsRow (at links.new) row ends.new }
    ensures gone { at links.new place ≡ None }
    ensures others { (j : ℕ) → j ≢ place → row_mark_at (at links.new) j ≡ row_mark_at (at links.old) j }
    ensures elsewhere { StaysElsewhere (at links.old) (at links.new) row }
    ensures len { length links.new ≡ length links.old }
{
    let link = link_at(links, place);
    set_newer(links, ends, link.older, link.newer);
    set_older(links, ends, link.newer, link.older);
    links[place] = None;
}

/// Makes links for places up to this many, none of which waits.
pub fn grow(links: &mut Vec<Option<Link>>, len: usize)
    requires { len ≤ vec_capacity links.old }
    ensures same { (j : ℕ) → at links.new.items j ≡ at links.old.items j }
    ensures len { len ≤ length links.new.items }
    ensures capacity { vec_capacity links.new ≡ vec_capacity links.old }
{
    while links.len() < len {
        links.push_reserved(None);
    }
}

/// The place of greatest tag below a bound in a row.
pub fn last_below(links: &[Option<Link>], ends: &Ends, row: u64, below: u64) -> Option<usize>
    requires { IsRow (at links.now) row ends.now }
    ensures { IsEdge older (row_mark_at (at links.now)) row (λ u. older u below) result }
{
    if starts_from(links, ends.oldest, row, below) {
        return None;
    }
    let mut place = ends.newest;
    while let Some(i) = place {
        let link = link_at(links, i);
        if link.tag < below {
            return place;
        }
        place = link.older;
    }
    None
}

/// Whether the least tag of a row isn't below a bound.
fn starts_from(links: &[Option<Link>], oldest: Option<usize>, row: u64, below: u64) -> bool
    requires { IsEdge newer (row_mark_at (at links.now)) row any oldest }
    ensures { OnTrue result ((j u : ℕ) → row_mark_at (at links.now) j ≡ Some (row, u) → u < below → ⊥) }
{
    match oldest {
        None => true,
        Some(i) => link_at(links, i).tag >= below,
    }
}

/// The waiter at a place, if there is a place.
pub fn waiter_at(links: &[Option<Link>], place: Option<usize>) -> Option<Waiter>
    requires { IsThere links.now place }
    ensures { result ≡ waiter_of (at links.now) place }
{
    match place {
        None => None,
        Some(slot) => Some(Waiter {
            tag: link_at(links, slot).tag,
            slot,
        }),
    }
}
