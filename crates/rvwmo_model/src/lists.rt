//! Lists of operations and of instructions.

ghost use Rattle.std.specs.Prelude.{◌≡◌, ◌++◌, ◌∷◌, [], length, slice_get, MatchResult};
ghost use Rattle.std.specs.Option.{option_copied};

use crate::instructions::Retired;
use crate::operations::Op;
use std::alloc::{AllocError, Global};
use std::marker::Model;

/// A list that grows at its end.
#[derive(Drop)]
pub struct ItemList<T> {
    items: Vec<T>,
}

/// A list of instructions. The instructions of one hart stand in program order.
pub type InsnList = ItemList<Retired>;

/// A list of operations, in no order of its own.
pub type OpList = ItemList<Op>;

impl<T> Model for ItemList<T> {
    ghost use Rattle.std.specs.Prelude.{List};

    ghost Value = { List T };

    ghost view = { λ list. list.items.items };
}

impl<T: Copy> ItemList<T> {
    /// The empty list.
    pub fn new(alloc: Global) -> ItemList<T>
        ensures { result ≡ [] }
    {
        ItemList {
            items: Vec::new(alloc),
        }
    }

    /// Puts an item at the end. Without memory for it the list stays as it is.
    pub fn push(&mut self, item: T) -> Result<(), AllocError>
        ensures { MatchResult result (λ _. self.new ≡ self.old ++ item ∷ []) (λ _. self.new ≡ self.old) }
    {
        self.items.push(item)?;
        Ok(())
    }

    /// How many there are.
    pub fn len(&self) -> usize
        ensures { result ≡ length self.now }
    {
        self.items.len()
    }

    /// Item `k`, counted from 0. None exactly where `k` isn't below the length.
    pub fn get(&self, k: usize) -> Option<&T>
        ensures { option_copied result ≡ slice_get self.now k }
    {
        self.items.get(k)
    }

    /// All of them.
    pub(crate) fn items(&self) -> &[T]
        ensures { result.now ≡ self.now }
    {
        self.items.as_slice()
    }
}
