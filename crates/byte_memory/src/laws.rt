//! What memory keeps of a byte, told by the stores to it: laws, with nothing to do.

ghost use Rattle.std.specs.Prelude.{◌≡◌, ℕ, List, Option, Some, true, false};
ghost use Rattle.std.specs.List.{Contains};
ghost use Rattle.tandem_base.specs.declared.names.Position.{Position};
ghost use Rattle.byte_memory.specs.Cells.{ByteStore, Gains, IsLatestWriter, IsLeft, is_before, is_foreign_before};
ghost use Rattle.byte_memory.specs.Memory.{Written, foreign_writer, overwritten};
ghost use Rattle.tandem_base.specs.Places.{comes_before};

/// A store that is later than all before it leaves the byte as `Memory::store` says.
#[tactic(auto, using(crate::proofs::CellLaws::left_grows))]
pub fn stores_leave_their_byte()
    ensures { (place later : Position) → (stores grown : List ByteStore) → (new : ByteStore) → Gains stores new grown
        → ((s : ByteStore) → Contains stores s → is_before place s.writer ≡ true)
        → comes_before new.writer.place place ≡ false → comes_before new.writer.place later ≡ true
        → (was : Option Written) → IsLeft place stores was →
        IsLeft later grown (Some (overwritten was new.writer new.value)) }
{}

/// What stands before a place is left as it is by every growth at that place or later, so a
/// capture stays what the stores before its place left.
#[tactic(auto, using(crate::proofs::CellLaws::left_stays))]
pub fn captures_stay()
    ensures { (place : Position) → (stores grown : List ByteStore)
        → ((s : ByteStore) → is_before place s.writer ≡ true → Contains stores s → Contains grown s)
        → ((s : ByteStore) → is_before place s.writer ≡ true → Contains grown s → Contains stores s)
        → (was : Option Written) → IsLeft place stores was → IsLeft place grown was }
{}

/// The last writer of another hart than a given one is the last writer, or else the last of another
/// hart than its.
#[tactic(auto, using(crate::proofs::CellLaws::left_foreign))]
pub fn two_writers_tell_each_last_foreign_one()
    ensures { (place : Position) → (stores : List ByteStore) → (was : Option Written) → (hart : ℕ) →
        IsLeft place stores was
        → IsLatestWriter (is_foreign_before place hart) stores (foreign_writer hart was) }
{}
