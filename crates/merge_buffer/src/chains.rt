//! The Inserts of a line, linked from the newest back.

ghost use Rattle.std.specs.Prelude.{◌≡◌, ◌≢◌, ◌+◌, ◌*◌, ◌/◌, ◌<◌, ◌≤◌, ℕ, List, [], ◌∷◌, ◌++◌, length, Some, None};
ghost use Rattle.std.specs.Prelude.{IsSome, vec_len, vec_capacity, true, ◌==◌};
ghost use Rattle.slab.specs.Slab.{get, slab_len, HasRoomFor};
ghost use Rattle.key_tree.specs.Entries.{number_at};
ghost use Rattle.merge_buffer.specs.declared.waiting.Part.{Part as Kept};
ghost use Rattle.merge_buffer.specs.declared.waiting.Waiting.{Waiting as Entry};
ghost use Rattle.merge_buffer.specs.Parts.{line_of, latest_byte, parts_with, AllBelow, Falls, AllOn, IsWithinLine};
ghost use Rattle.merge_buffer.specs.Chains.{IsChain, IsChained, AreChained, parts_on, merged_byte};

use crate::merging::Merged;
use crate::waiting::{Part, Waiting};
use key_tree::KeyTree;
use slab::Slab;

/// An entry that is there.
fn entry_at(waiting: &Slab<Waiting>, at: usize) -> &Waiting
    requires { IsSome (get waiting.now at) }
    ensures { get waiting.now at ≡ Some result.now }
{
    match waiting.get(at) {
        Some(entry) => entry,
        None => unreachable!(),
    }
}

/// Adds an Insert, the newest of its line.
pub fn add(waiting: &mut Slab<Waiting>, newest: &mut KeyTree, part: &Part)
    requires chained { AreChained waiting.old newest.old }
    requires room { HasRoomFor waiting.old 1 }
    requires lines { slab_len waiting.old < newest.old.capacity }
    requires within { IsWithinLine part.now.piece }
    requires newer { AllBelow part.now.number (parts_on newest.old.capacity waiting.old newest.old (line_of part.now)) }
    ensures chained { AreChained waiting.new newest.new }
    ensures parts { (line : ℕ) → parts_on newest.old.capacity waiting.new newest.new line
        ≡ parts_with part.now line (parts_on newest.old.capacity waiting.old newest.old line) }
    ensures len { slab_len waiting.new ≡ slab_len waiting.old + 1 }
    ensures capacity { waiting.new.capacity ≡ waiting.old.capacity }
    ensures lines { newest.new.capacity ≡ newest.old.capacity }
{
    let line = part.piece.addr / 64;
    let before = newest.get(line);
    let at = waiting.insert_reserved(Waiting {
        part: *part,
        before,
    });
    newest.put(line, at);
}

/// The bytes of the Inserts of a line, the newest over the others.
pub fn merge(waiting: &Slab<Waiting>, head: Option<usize>, line: u64) -> Merged
    requires chained { IsChained (get waiting.now) head line }
    ensures { (ps : List Kept) → IsChain (get waiting.now) head ps → (k : ℕ) → k < 64 →
        merged_byte result k ≡ latest_byte ps (line * 64 + k) }
{
    let mut merged = Merged::new();
    let mut at = head;
    while let Some(i) = at {
        let entry = entry_at(waiting, i);
        merged.add(line, &entry.part.piece);
        at = entry.before;
    }
    merged
}

/// Takes the Inserts of a line out, the newest first.
pub fn drain(waiting: &mut Slab<Waiting>, head: Option<usize>, line: u64, drained: &mut Vec<Part>)
    requires chained { IsChained (get waiting.old) head line }
    requires room { vec_len drained.old + slab_len waiting.old ≤ vec_capacity drained.old }
    ensures drained { (ps : List Kept) → IsChain (get waiting.old) head ps →
        drained.new.items ≡ drained.old.items ++ ps }
    ensures count { (ps : List Kept) → IsChain (get waiting.old) head ps →
        slab_len waiting.new + length ps ≡ slab_len waiting.old }
    ensures others { (i : ℕ) → (w : Entry) → get waiting.old i ≡ Some w → line_of w.part ≢ line →
        get waiting.new i ≡ Some w }
    ensures capacity { waiting.new.capacity ≡ waiting.old.capacity }
    ensures room { vec_capacity drained.old ≤ vec_capacity drained.new }
{
    let mut at = head;
    while let Some(i) = at {
        let entry = waiting.remove(i);
        drained.push_reserved(entry.part);
        at = entry.before;
    }
}
