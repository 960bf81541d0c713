//! The open LR of a hart.

use crate::reservation::Reservation;
use crate::sc::Sc;
use byte_memory::StoreCapture;
use tandem_base::{Extent, Position};
use window_laws::ByteSource;

/// The latest LR of a hart that no LR or SC without trap followed.
#[derive(Clone, Copy, Debug, PartialEq, Eq)]
pub struct Pairing {
    /// The LR, None where none is open.
    pub reserved: Option<Reservation>,
}

impl Pairing {
    ghost use Rattle.std.specs.Prelude.{◌≡◌, None, Some};
    ghost use Rattle.amo_pairing.specs.Breaches.{IsAnswered};
    ghost use Rattle.amo_pairing.specs.ScAnswers.{TellsAtomicity, TellsPair};
    ghost use Rattle.amo_pairing.specs.Sources.{GivesPlacesIfAny};

    /// No LR is open.
    pub fn new() -> Pairing
        ensures { result.reserved ≡ None }
    {
        Pairing { reserved: None }
    }

    /// An LR retires: source k is that of byte k of its extent.
    pub fn lr(&mut self, extent: &Extent, place: Position, sources: &[ByteSource; 8])
        ensures { self.new.reserved ≡ Some (record {
          extent = extent.now;
          place = place;
          sources = sources.now;
        }) }
    {
        self.reserved = Some(Reservation {
            extent: *extent,
            place,
            sources: *sources,
        });
    }

    /// Bytes of a store of the hart, those of an extent, are performed: each kept source that is this store
    /// and waited has this place; all else stays.
    pub fn performed(&mut self, tag: u64, extent: &Extent, place: Position)
        ensures { GivesPlacesIfAny tag extent.now place self.old.reserved self.new.reserved }
    {
        if let Some(reserved) = &mut self.reserved {
            reserved.performed(tag, extent, place);
        }
    }

    /// Judges a successful SC of the hart, with the bytes of this extent, that retires: by what is kept,
    /// and by what its report saw of memory and of the block.
    pub fn sc(&self, hart: u8, extent: &Extent, seen: &StoreCapture) -> Sc
        ensures pair { TellsPair self.now.reserved hart extent.now result }
        ensures atomicity { TellsAtomicity self.now.reserved hart extent.now seen.now result }
    {
        self.judged(hart, extent, seen)
    }

    /// The answer to it.
    fn judged(&self, hart: u8, extent: &Extent, seen: &StoreCapture) -> Sc
        ensures { IsAnswered self.now.reserved hart extent.now seen.now result }
    {
        match &self.reserved {
            None => Sc::NoPair,
            Some(reserved) => reserved.judge(hart, extent, seen),
        }
    }

    /// Forgets the LR.
    pub fn clear(&mut self)
        ensures { self.new.reserved ≡ None }
    {
        self.reserved = None;
    }
}
