//! Places and names of memory operations.

ghost use Rattle.std.specs.Prelude.{◌≡◌, ◌≤◌, ◌<◌, ◌⊎◌, ℕ, true, false};
ghost use Rattle.tandem_base.specs.Places.{earlier, comes_before, place_at};
ghost use Rattle.tandem_base.specs.declared.names.Place.{Place};
ghost use Rattle.tandem_base.specs.declared.names.Position.{Position};

/// When an operation was performed: the time and number of the message that performed it, and for
/// a part of a drained merge-buffer line the number of its Insert. Places are ordered by their
/// fields, from first to last.
#[derive(Clone, Copy, Debug, PartialEq, Eq, PartialOrd, Ord)]
pub struct Place {
    /// The time of the message, in the units that the reports use.
    pub time: u64,
    /// The number of the message, from 1.
    pub message: u64,
    /// The number of the Insert for a part of a drained line, and else the message's number again.
    pub insert: u64,
}

impl Place {
    /// Whether this place comes before the other: what `<` says of places.
    pub fn is_before(&self, other: &Place) -> bool
        ensures { result ≡ earlier self.now other.now }
    {
        self < other
    }
}

/// The order of places is total: a law, with nothing to do.
pub fn places_are_ordered()
    ensures each_two { (a b : Place) → (earlier a b ≡ true) ⊎ (a ≡ b) ⊎ (earlier b a ≡ true) }
    ensures irreflexive { (a : Place) → earlier a a ≡ false }
    ensures transitive { (a b c : Place) → earlier a b ≡ true → earlier b c ≡ true → earlier a c ≡ true }
{}

/// Where a place stands among those of one stream: a place without its time, as tables keep it. Times
/// never fall from message to message, so of two places the earlier is the one of the earlier position.
#[derive(Clone, Copy, Debug, PartialEq, Eq, PartialOrd, Ord)]
pub struct Position {
    /// The number of the message, from 1.
    pub message: u32,
    /// The number of the Insert for a part of a drained line, and else the message's number again.
    pub insert: u32,
}

impl Position {
    /// Whether this position comes before the other: what `<` says of positions.
    pub fn is_before(&self, other: &Position) -> bool
        ensures { result ≡ comes_before self.now other.now }
    {
        *self < *other
    }
}

/// The order of positions is that of the places of one stream: a law, with nothing to do. It holds
/// at one time, and at two where no later message has an earlier time, and one message one time.
pub fn positions_are_ordered_as_places()
    ensures one_time { (time : ℕ) (a b : Position) → comes_before a b ≡ earlier (place_at time a) (place_at time b) }
    ensures one_stream { (t u : ℕ) (a b : Position) → (a.message < b.message → t ≤ u)
        → (b.message < a.message → u ≤ t) → (a.message ≡ b.message → t ≡ u)
        → comes_before a b ≡ earlier (place_at t a) (place_at u b) }
{}

/// The name of a memory operation: its hart, the tag of its instruction, and the offset of its
/// lowest byte within the instruction's extent.
#[derive(Clone, Copy, Debug, PartialEq, Eq, PartialOrd, Ord)]
pub struct OpName {
    /// The number of the hart, from 0.
    pub hart: u8,
    /// The tag that its instruction was given.
    pub tag: u64,
    /// How many bytes it begins behind the instruction's address.
    pub part: u8,
}

/// The hart and tag of an instruction, by which sources are told apart.
#[derive(Clone, Copy, Debug, PartialEq, Eq, PartialOrd, Ord)]
pub struct Origin {
    /// The number of the hart, from 0.
    pub hart: u8,
    /// The tag that the instruction was given.
    pub tag: u64,
}

/// Where a loaded byte comes from. The writer is None for the initial value; the place is that of
/// the writer's operation on the byte, None where the source is initial or not performed.
#[derive(Clone, Copy, Debug, PartialEq, Eq)]
pub struct Source1 {
    /// The instruction that wrote the byte.
    pub writer: Option<Origin>,
    /// When it was written.
    pub place: Option<Place>,
    /// The byte.
    pub byte: u8,
}
