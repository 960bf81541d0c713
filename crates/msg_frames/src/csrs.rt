//! The CSRs that an instruction wrote.

ghost use Rattle.std.specs.Prelude.{◌≡◌, ◌<◌, ◌≤◌, ◌++◌, ◌∷◌, [], length, slice_get};

use arrayvec::ArrayVec;
use std::marker::Model;

/// The value that a CSR was left with.
#[derive(Clone, Copy, Debug, Default, PartialEq, Eq)]
pub struct CsrValue {
    /// The number of the CSR.
    pub number: u16,
    /// The value that it was left with.
    pub value: u64,
}

/// The CSRs that an instruction wrote, in their order: at most four.
#[derive(Debug, Drop)]
pub struct CsrList {
    items: ArrayVec<CsrValue, 4>,
}

impl Model for CsrList {
    ghost use Rattle.std.specs.Prelude.{◌≤◌, List};
    ghost use Rattle.arrayvec.specs.ArrayVec.{array_vec_len};
    ghost use Rattle.msg_frames.specs.declared.csrs.CsrValue.{CsrValue};

    ghost Value = { List CsrValue };

    ghost view = { λ list. list.items.items };

    ghost invariant = { λ list. array_vec_len list.items ≤ 4 };
}

impl CsrList {
    /// The empty list.
    pub fn new() -> CsrList
        ensures { result ≡ [] }
    {
        CsrList {
            items: ArrayVec::new(),
        }
    }

    /// Puts a value at the end.
    pub fn push(&mut self, item: CsrValue)
        requires { length self.old < 4 }
        ensures { self.new ≡ self.old ++ item ∷ [] }
    {
        self.items.push(item);
    }

    /// Takes all of them out.
    pub fn clear(&mut self)
        ensures { self.new ≡ [] }
    {
        self.items.clear();
    }

    /// How many there are, at most four.
    pub fn len(&self) -> usize
        ensures value { result ≡ length self.now }
        ensures bound { result ≤ 4 }
    {
        self.items.len()
    }

    /// Value `k`, counted from 0. None exactly where `k` isn't below the length.
    pub fn get(&self, k: usize) -> Option<CsrValue>
        ensures { result ≡ slice_get self.now k }
    {
        self.items.get(k).copied()
    }

    /// The same list, without taking memory.
    pub(crate) fn copy(&self) -> CsrList
        ensures { result ≡ self.now }
    {
        let mut list = CsrList::new();
        for k in 0..self.len() {
            let Some(item) = self.get(k) else {
                unreachable!()
            };
            list.push(item);
        }
        list
    }
}
