//! Numbers under keys.

ghost use Rattle.std.specs.Prelude.{◌≡◌, ◌+◌, ◌<◌, ℕ, [], length};

use crate::node::Node;
use crate::nodes;
use slab::Slab;
use std::alloc::{AllocError, Global};
use std::marker::Model;

/// Numbers under keys of 64 bits, as many as there is room for. A call goes through at most 65 nodes,
/// whatever the keys are, and through few where their low bits differ.
#[derive(Drop)]
pub struct KeyTree {
    nodes: Slab<Node>,
    root: Option<usize>,
    capacity: u32,
}

impl Model for KeyTree {
    ghost use Rattle.std.specs.Prelude.{◌≡◌, ◌≤◌};
    ghost use Rattle.slab.specs.Slab.{get, slab_len};
    ghost use Rattle.key_tree.specs.Entries.{KeyedEntries, entries_of};
    ghost use Rattle.key_tree.specs.Trees.{IsSound};

    ghost Value = { KeyedEntries };

    ghost view = { λ t. record { entries = entries_of t.nodes.slots; capacity = t.capacity } };

    ghost invariant = { λ t. IsSound (get t.nodes) t.root × (slab_len t.nodes ≤ t.capacity)
        × (t.capacity ≤ t.nodes.capacity) };
}

impl KeyTree {
    ghost use Rattle.std.specs.Prelude.{◌≡◌, ◌+◌, ◌<◌, ◌≤◌, ℕ, [], length, IfOk, OnOk, is_some, if◌then◌else◌};
    ghost use Rattle.key_tree.specs.Entries.{number_at, number_of, put, with_key_taken, AreDistinct};

    /// No numbers, with room for `capacity` keys.
    pub fn new(alloc: Global, capacity: u32) -> Result<KeyTree, AllocError>
        ensures { IfOk result (λ t. t ≡ record { entries = []; capacity = capacity }) }
    {
        Ok(KeyTree {
            nodes: Slab::with_capacity(alloc, capacity as usize)?,
            root: None,
            capacity,
        })
    }

    /// No numbers, and no room yet.
    pub fn empty(alloc: Global) -> KeyTree
        ensures { result ≡ record { entries = []; capacity = 0 } }
    {
        KeyTree {
            nodes: Slab::new(alloc),
            root: None,
            capacity: 0,
        }
    }

    /// The number under a key.
    pub fn get(&self, key: u64) -> Option<usize>
        ensures number { result ≡ number_at self.now key }
        ensures distinct { AreDistinct self.now.entries }
    {
        nodes::number(&self.nodes, self.root, key)
    }

    /// How many keys there are.
    pub fn len(&self) -> usize
        ensures count { result ≡ length self.now.entries }
        ensures room { length self.now.entries ≤ self.now.capacity }
    {
        self.nodes.len()
    }

    /// Makes room for one key more, where there is none.
    pub fn reserve(&mut self) -> Result<(), AllocError>
        ensures room { OnOk result (length self.new.entries < self.new.capacity) }
        ensures entries { self.new.entries ≡ self.old.entries }
        ensures capacity { self.old.capacity ≤ self.new.capacity }
    {
        if self.nodes.len() < self.capacity as usize {
            return Ok(());
        }
        if self.capacity == u32::MAX {
            return Err(AllocError);
        }
        self.nodes.reserve(1)?;
        self.capacity += 1;
        Ok(())
    }

    /// Puts a number under a key, in place of the one that is there.
    pub fn put(&mut self, key: u64, number: usize)
        // A caller has bound the keys by the capacity, asks `len`, or calls `reserve` before.
        requires room { length self.old.entries < self.old.capacity }
        ensures numbers { (q : ℕ) → number_at self.new q ≡ put key number self.old.entries q }
        ensures capacity { self.new.capacity ≡ self.old.capacity }
    {
        nodes::put(&mut self.nodes, &mut self.root, key, number);
    }

    /// Takes a key away, and answers the number that was under it.
    pub fn take(&mut self, key: u64) -> Option<usize>
        ensures taken { result ≡ number_at self.old key }
        ensures numbers { (q : ℕ) → number_at self.new q ≡ with_key_taken key self.old.entries q }
        ensures capacity { self.new.capacity ≡ self.old.capacity }
    {
        nodes::take(&mut self.nodes, &mut self.root, key)
    }
}
