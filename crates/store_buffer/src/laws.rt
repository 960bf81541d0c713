//! Which stores have an unperformed byte, and which bytes wait: laws, with nothing to do.

ghost use Rattle.std.specs.Prelude.{◌≡◌, ◌≢◌, ◌<◌, ◌≤◌, ◌↔◌, ℕ, List, ◌∷◌, length, true, Some};
ghost use Rattle.msg_frames.specs.declared.message.Piece.{Piece};
ghost use Rattle.store_buffer.specs.declared.store.ByteState.TheVariants.{Inserted, Performed};
ghost use Rattle.store_buffer.specs.declared.store.Store.{Store};
ghost use Rattle.store_buffer.specs.declared.store.StoreMarks.{StoreMarks};
ghost use Rattle.store_buffer.specs.Store.{stays_open, is_new_part, with_states, untouched_store, HasOpenByte};
ghost use Rattle.store_buffer.specs.Store.{answer_for};
ghost use Rattle.store_buffer.specs.Stores.{open_stores, all_given, store_of_tag, after_taken, AllTagged};
ghost use Rattle.store_buffer.specs.Waiting.{AreRetired, waiting_bytes, BytesWait, BytesLeave, SameBytesWait};
ghost use Rattle.store_buffer.specs.Waiting.{IsGreatestWaiting, pending_in};

/// A store is unperformed exactly while one of its bytes is. One that retires is, an Insert or a Bypass
/// that is taken changes it of none, what is performed makes none unperformed again, and a sweep drops
/// exactly the others.
pub fn a_store_waits_for_its_last_byte()
    ensures bytes { (s : Store) → length s.entry.piece.bytes ≤ 8 → (stays_open s ≡ true) ↔ HasOpenByte s }
    ensures retired { (tag : ℕ) (piece : Piece) (marks : StoreMarks) (ss : List Store) → 1 ≤ length piece.bytes →
        open_stores (untouched_store tag piece marks ∷ ss) ≡ untouched_store tag piece marks ∷ open_stores ss }
    ensures taken { (s : Store) (piece : Piece) → is_new_part s piece ≡ true →
        stays_open (with_states Inserted piece.addr (length piece.bytes) s) ≡ stays_open s }
    ensures performed { (tag addr len : ℕ) (ss : List Store) →
        open_stores (all_given tag Performed addr len ss)
        ≡ open_stores (all_given tag Performed addr len (open_stores ss)) }
    ensures swept { (ss : List Store) → open_stores (open_stores ss) ≡ open_stores ss }
{}

/// The bytes that wait under each tag. Those of a store that retires wait too, those that are performed
/// wait no longer, and an Insert, a Bypass and a sweep change nothing. What is pending at an address is
/// the byte that waits there under the greatest tag, which is below that of what retires next.
pub fn bytes_wait_until_performed()
    ensures retired { (tag : ℕ) (piece : Piece) (marks : StoreMarks) (ss : List Store) →
        BytesWait (waiting_bytes ss) (waiting_bytes (untouched_store tag piece marks ∷ ss)) tag piece }
    ensures taken { (tag : ℕ) (piece : Piece) (ss : List Store) → AreRetired ss → SameBytesWait (waiting_bytes ss)
        (waiting_bytes (after_taken (answer_for (store_of_tag tag ss) piece) tag piece ss)) }
    ensures performed { (tag addr len : ℕ) (ss : List Store) → AreRetired ss →
        BytesLeave (waiting_bytes ss) (waiting_bytes (all_given tag Performed addr len ss)) tag addr len }
    ensures swept { (ss : List Store) → AreRetired ss →
        SameBytesWait (waiting_bytes ss) (waiting_bytes (open_stores ss)) }
    ensures latest { (hart x : ℕ) (ss : List Store) → AreRetired ss →
        IsGreatestWaiting (waiting_bytes ss) x (pending_in hart ss x) }
    ensures earlier { (bound tag x value : ℕ) (ss : List Store) → AllTagged bound ss →
        waiting_bytes ss tag x ≡ Some value → tag < bound }
{}
