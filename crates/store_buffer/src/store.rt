//! A retired store and what became of its bytes.

ghost use Rattle.std.specs.Prelude.{◌≡◌, ◌+◌, ◌<◌, ◌≤◌, length, is_some, IfSome, true};
ghost use Rattle.tandem_base.specs.Extents.{is_among as is_one_of};
ghost use Rattle.store_buffer.specs.Searches.{lowest_below};
ghost use Rattle.store_buffer.specs.Store as Spec;

use msg_frames::Piece;
use tandem_base::Mark;

/// What became of a byte of a store.
#[derive(Clone, Copy, Debug, PartialEq, Eq)]
pub enum ByteState {
    /// No Insert and no Bypass had it.
    Untouched,
    /// An Insert or a Bypass had it, and it isn't performed.
    Inserted,
    /// It is performed.
    Performed,
}

/// What the rules of preserved program order ask of a store when it is performed.
#[derive(Clone, Copy, Debug, PartialEq, Eq)]
pub struct StoreMarks {
    /// The tag of the latest FENCE before it in program order that orders stores before stores.
    pub fence: Option<u64>,
    /// Whether it has a release annotation.
    pub release: bool,
    /// The latest operation on which it has an address or data dependency.
    pub lead: Option<Mark>,
}

/// A retired store.
#[derive(Clone, Copy, Debug, PartialEq, Eq)]
pub struct Entry {
    /// The bytes that it stores.
    pub piece: Piece,
    /// What the rules ask of it.
    pub marks: StoreMarks,
}

/// A retired store under its tag, with the state of each of its at most eight bytes.
#[derive(Clone, Copy, Debug, PartialEq, Eq)]
pub struct Store {
    /// The tag of the instruction.
    pub tag: u64,
    /// The store.
    pub entry: Entry,
    /// The state of the byte at `addr + k`.
    pub states: [ByteState; 8],
}

/// Whether a byte is performed.
pub fn is_performed(state: ByteState) -> bool
    ensures { result ≡ Spec.is_done_byte state }
{
    matches!(state, ByteState::Performed)
}

/// Whether no Insert and no Bypass had a byte.
pub fn is_untouched(state: ByteState) -> bool
    ensures { result ≡ Spec.is_untouched state }
{
    matches!(state, ByteState::Untouched)
}

/// Whether an address is one of the `len` from `addr` up.
pub fn is_among(addr: u64, len: u8, x: u128) -> bool
    ensures { result ≡ is_one_of addr len x }
{
    let addr = u128::from(addr);
    addr <= x && x - addr < u128::from(len)
}

impl Store {
    /// A store of which no byte was in a message.
    pub fn new(tag: u64, piece: &Piece, marks: &StoreMarks) -> Store
        ensures value { result ≡ Spec.untouched_store tag piece.now marks.now }
        ensures opens { Spec.stays_open result ≡ true }
        ensures sized { length piece.now.bytes ≤ 8 }
    {
        let _size = piece.bytes.len();
        Store {
            tag,
            entry: Entry {
                piece: *piece,
                marks: *marks,
            },
            states: [ByteState::Untouched; 8],
        }
    }

    /// The address of byte `k`, which may be past 2^64 where the store has no such byte.
    pub fn address(&self, k: u8) -> u128
        ensures { result ≡ self.now.entry.piece.addr + k }
    {
        u128::from(self.entry.piece.addr) + u128::from(k)
    }

    /// The state of byte `k`.
    pub fn state(&self, k: u8) -> ByteState
        requires { k < 8 }
        ensures { result ≡ Spec.state_of self.now k }
    {
        self.states[usize::from(k)]
    }

    /// The state of byte `k` once these bytes have this one.
    fn state_after(&self, to: ByteState, addr: u64, len: u8, k: u8) -> ByteState
        requires { k < 8 }
        ensures { result ≡ Spec.state_after to addr len self.now k }
    {
        if is_among(addr, len, self.address(k)) {
            to
        } else {
            self.state(k)
        }
    }

    /// Gives the bytes at these addresses this state.
    pub fn give(&mut self, to: ByteState, addr: u64, len: u8)
        ensures { self.new ≡ Spec.with_states to addr len self.old }
    {
        self.states = [
            self.state_after(to, addr, len, 0),
            self.state_after(to, addr, len, 1),
            self.state_after(to, addr, len, 2),
            self.state_after(to, addr, len, 3),
            self.state_after(to, addr, len, 4),
            self.state_after(to, addr, len, 5),
            self.state_after(to, addr, len, 6),
            self.state_after(to, addr, len, 7),
        ];
    }

    /// The lowest of the first `count` bytes that isn't performed.
    fn lowest_open_of(&self, count: u8) -> Option<u8>
        requires { count ≤ 8 }
        ensures { result ≡ lowest_below (Spec.is_open_byte self.now) count }
    {
        let mut lowest = None;
        for k in 0..count {
            let open = k < self.entry.piece.bytes.len() && !is_performed(self.state(k));
            if lowest.is_none() && open {
                lowest = Some(k);
            }
        }
        lowest
    }

    /// The lowest byte that isn't performed.
    #[tactic(auto, unfolding(crate::specs::Store::lowest_open))]
    pub fn lowest_open(&self) -> Option<u8>
        ensures { result ≡ Spec.lowest_open self.now }
    {
        self.lowest_open_of(8)
    }

    /// Whether a byte isn't performed.
    pub fn is_open(&self) -> bool
        ensures { result ≡ Spec.stays_open self.now }
    {
        self.lowest_open().is_some()
    }
}
