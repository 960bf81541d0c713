//! The operations that are kept, each under a key.

ghost use Rattle.std.specs.Prelude.{◌≡◌, ◌+◌, ◌<◌, ◌≤◌, ◌++◌, ◌∷◌, [], slice_set, vec_len, vec_capacity};
ghost use Rattle.kept_ops.specs.Ops.{live_node};

use crate::division::Division;
use crate::operation::KeptOp;
use std::alloc::{AllocError, Global};
use std::marker::Model;
use tandem_base::Extent;

/// An operation that is kept, or that was and whose room is vacant, with a division at whose cells it
/// does the same at all bytes.
#[derive(Clone, Copy, Debug)]
pub struct Node {
    pub op: KeptOp,
    pub division: Division,
    pub live: bool,
}

/// Operations under keys, as many as there is room for. A key that is free again is the next to be given.
#[derive(Drop)]
pub struct Ops {
    nodes: Vec<Node>,
    vacant: Vec<u32>,
    capacity: u32,
}

impl Model for Ops {
    ghost use Rattle.std.specs.Prelude.{◌≤◌, map, vec_len, vec_capacity};
    ghost use Rattle.slab.specs.Slab.{Slab};
    ghost use Rattle.kept_ops.specs.declared.operation.KeptOp.{KeptOp as Op};
    ghost use Rattle.kept_ops.specs.Ops.{op_in, AreVacant, AreEven};

    ghost Value = { Slab Op };

    ghost view = { λ o. record { slots = map op_in o.nodes.items; vacant_key = 0; capacity = o.capacity } };

    ghost invariant = { λ o. AreVacant (map op_in o.nodes.items) o.vacant.items × AreEven o.nodes.items
        × (vec_len o.nodes ≤ o.capacity) × (o.capacity ≤ vec_capacity o.nodes) × (o.capacity ≤ vec_capacity o.vacant) };
}

/// Puts an operation where another was.
fn fill(nodes: &mut Vec<Node>, at: usize, op: &KeptOp, division: Division)
    requires { at < vec_len nodes.old }
    ensures items { nodes.new.items ≡ slice_set nodes.old.items at (live_node op.now division) }
    ensures len { vec_len nodes.new ≡ vec_len nodes.old }
    ensures capacity { vec_capacity nodes.new ≡ vec_capacity nodes.old }
{
    let node = &mut nodes[at];
    node.op = *op;
    node.division = division;
    node.live = true;
}

/// Puts an operation behind the others.
fn push(nodes: &mut Vec<Node>, op: &KeptOp, division: Division)
    requires { vec_len nodes.old < vec_capacity nodes.old }
    ensures items { nodes.new.items ≡ nodes.old.items ++ live_node op.now division ∷ [] }
    ensures len { vec_len nodes.new ≡ vec_len nodes.old + 1 }
    ensures capacity { vec_capacity nodes.old ≤ vec_capacity nodes.new }
{
    let node = Node {
        op: *op,
        division,
        live: true,
    };
    match nodes.push(node) {
        Ok(()) => {}
        Err(_) => unreachable!(),
    }
}

/// Puts a key behind the others.
fn push_key(keys: &mut Vec<u32>, key: u32)
    requires { vec_len keys.old < vec_capacity keys.old }
    ensures items { keys.new.items ≡ keys.old.items ++ key ∷ [] }
    ensures capacity { vec_capacity keys.old ≤ vec_capacity keys.new }
{
    match keys.push(key) {
        Ok(()) => {}
        Err(_) => unreachable!(),
    }
}

impl Ops {
    ghost use Rattle.std.specs.Prelude.{◌≡◌, ◌+◌, ◌<◌, ◌≤◌, [], Some, None, IfOk, option_copied, slice_set};
    ghost use Rattle.slab.specs.Slab.{get, slab_len, Updates};
    ghost use Rattle.kept_ops.specs.declared.operation.KeptOp.{KeptOp as Op};
    ghost use Rattle.kept_ops.specs.Divisions.{IsEven};
    ghost use Rattle.kept_ops.specs.Doublewords.{op_at};

    /// No operations, with room for `capacity` of them.
    pub fn new(alloc: Global, capacity: u32) -> Result<Ops, AllocError>
        ensures empty { IfOk result (λ ops. ops.slots ≡ []) }
        ensures capacity { IfOk result (λ ops. ops.capacity ≡ capacity) }
    {
        Ok(Ops {
            nodes: Vec::with_capacity(alloc, capacity as usize)?,
            vacant: Vec::with_capacity(alloc, capacity as usize)?,
            capacity,
        })
    }

    /// How many there are.
    pub fn len(&self) -> usize
        ensures { result ≡ slab_len self.now }
    {
        self.nodes.len() - self.vacant.len()
    }

    /// The operation under a key, if there is one.
    pub fn get(&self, key: u32) -> Option<&KeptOp>
        ensures { option_copied result ≡ get self.now key }
    {
        match self.nodes.get(key as usize) {
            Some(node) => { if node.live { Some(&node.op) } else { None } }
            None => None,
        }
    }

    /// A division at whose cells the operation under a key, if there is one, does the same at all bytes.
    pub fn division(&self, mark: Option<u32>) -> Division
        ensures { (o : Op) → op_at (get self.now) mark ≡ Some o → IsEven result o }
    {
        let Some(key) = mark else {
            return Division::Whole;
        };
        match self.nodes.get(key as usize) {
            Some(node) => node.division,
            None => Division::Whole,
        }
    }

    /// The extent of an operation that is there.
    pub fn extent(&self, key: u32) -> Extent
        requires { (o : Op) × (get self.now key ≡ Some o) }
        ensures { (o : Op) → get self.now key ≡ Some o → result ≡ o.extent }
    {
        match self.get(key) {
            Some(op) => op.extent,
            None => unreachable!(),
        }
    }

    /// Puts an operation under a key, which is answered.
    pub fn insert(&mut self, op: &KeptOp, division: Division) -> u32
        requires room { slab_len self.old < self.old.capacity }
        requires even { IsEven division op.now }
        ensures was_vacant { get self.old result ≡ None }
        ensures updates { Updates self.old self.new result (Some op.now) }
        ensures len { slab_len self.new ≡ slab_len self.old + 1 }
        ensures capacity { self.new.capacity ≡ self.old.capacity }
    {
        match self.vacant.pop() {
            Some(key) => {
                fill(&mut self.nodes, key as usize, op, division);
                key
            }
            None => {
                let key = self.nodes.len() as u32;
                push(&mut self.nodes, op, division);
                key
            }
        }
    }

    /// Takes the operation under a key away.
    pub fn remove(&mut self, key: u32)
        requires { (o : Op) × (get self.old key ≡ Some o) }
        ensures updates { Updates self.old self.new key None }
        ensures slots { self.new.slots ≡ slice_set self.old.slots key None }
        ensures len { slab_len self.new + 1 ≡ slab_len self.old }
        ensures capacity { self.new.capacity ≡ self.old.capacity }
    {
        self.nodes[key as usize].live = false;
        push_key(&mut self.vacant, key);
    }
}
