//! What is done to the nodes of a tree.

ghost use Rattle.std.specs.Prelude.{◌≡◌, ◌≢◌, ◌+◌, ◌<◌, ◌⊎◌, ℕ, Some, None, IsSome};
ghost use Rattle.std.specs.Prelude.{◌≤◌, is_some, IfSome, IfNone, if◌then◌else◌};
ghost use Rattle.slab.specs.Slab.{get, Updates, HasRoomFor, slab_len};
ghost use Rattle.key_tree.specs.declared.node.Node.{Node};
ghost use Rattle.key_tree.specs.Trees.{side, child, with_child, IsTree, AreApart};
ghost use Rattle.key_tree.specs.Trees.{AreTree, WayEnds, IsLeafBelow, first_child};
ghost use Rattle.key_tree.specs.Trees.{node_with_entry, hung_from, planted, IsSound, AllBut};
ghost use Rattle.key_tree.specs.Entries.{number_of, entries_of, put as after_put, with_key_taken as after_take};

use crate::node::{Node, is_right};
use slab::Slab;

/// The last node on the way of a key: the one that has it, or else the one below which it belongs.
pub fn reach(nodes: &Slab<Node>, root: usize, key: u64) -> usize
    requires { IsTree (get nodes.now) (Some root) }
    ensures { WayEnds (get nodes.now) key result }
{
    let mut at = root;
    let mut depth = 0u8;
    loop {
        let node = node_at(nodes, at);
        if node.key == key {
            return at;
        }
        match node.child(is_right(key, depth)) {
            None => return at,
            Some(next) => {
                at = next;
                depth += 1;
            }
        }
    }
}

/// A node that is there.
pub fn node_at(nodes: &Slab<Node>, at: usize) -> &Node
    requires { IsSome (get nodes.now at) }
    ensures { get nodes.now at ≡ Some result.now }
{
    match nodes.get(at) {
        Some(node) => node,
        None => unreachable!(),
    }
}

/// The leaf to which the left children lead, or right ones where there is no left one.
pub fn leaf_below(nodes: &Slab<Node>, from: usize) -> usize
    requires there { IsSome (get nodes.now from) }
    requires tree { AreTree (get nodes.now) }
    ensures { IsLeafBelow (get nodes.now) from result }
{
    let mut at = from;
    let mut depth = node_at(nodes, from).depth;
    loop {
        let node = node_at(nodes, at);
        match first_child(node) {
            None => return at,
            Some(next) => {
                at = next;
                depth += 1;
            }
        }
    }
}

/// A child of a node, if it has one.
fn first_child(node: &Node) -> Option<usize>
    ensures { result ≡ first_child node.now }
{
    match node.left {
        Some(left) => Some(left),
        None => node.right,
    }
}

/// Sets a child of a node.
pub fn set_child(nodes: &mut Slab<Node>, at: usize, right: bool, to: Option<usize>)
    requires { IsSome (get nodes.old at) }
    ensures there { (n : Node) → get nodes.old at ≡ Some n → get nodes.new at ≡ Some (with_child right to n) }
    ensures others { (i : ℕ) → i ≢ at → get nodes.new i ≡ get nodes.old i }
    ensures len { slab_len nodes.new ≡ slab_len nodes.old }
    ensures capacity { nodes.new.capacity ≡ nodes.old.capacity }
{
    match nodes.get_mut(at) {
        Some(node) => node.set_child(right, to),
        None => unreachable!(),
    }
}

/// Gives a node another key with its number.
pub fn set_entry(nodes: &mut Slab<Node>, at: usize, key: u64, number: usize)
    requires { IsSome (get nodes.old at) }
    ensures there { (n : Node) → get nodes.old at ≡ Some n → get nodes.new at ≡ Some (node_with_entry key number n) }
    ensures others { (i : ℕ) → i ≢ at → get nodes.new i ≡ get nodes.old i }
    ensures len { slab_len nodes.new ≡ slab_len nodes.old }
    ensures capacity { nodes.new.capacity ≡ nodes.old.capacity }
{
    match nodes.get_mut(at) {
        Some(node) => {
            node.key = key;
            node.number = number;
        }
        None => unreachable!(),
    }
}

/// Hangs a node below another, and answers where it stands.
pub fn hang(nodes: &mut Slab<Node>, at: usize, key: u64, number: usize) -> usize
    requires there { (n : Node) → get nodes.old at ≡ Some n → n.depth < 64 }
    requires some { IsSome (get nodes.old at) }
    requires room { HasRoomFor nodes.old 1 }
    ensures vacant { get nodes.old result ≡ None }
    ensures there { (n : Node) → get nodes.old at ≡ Some n → get nodes.new result ≡ Some (hung_from at n key number) }
    ensures linked { (n : Node) → get nodes.old at ≡ Some n →
        get nodes.new at ≡ Some (with_child (side n.depth key) (Some result) n) }
    ensures others { (i : ℕ) → i ≢ at → i ≢ result → get nodes.new i ≡ get nodes.old i }
    ensures len { slab_len nodes.new ≡ slab_len nodes.old + 1 }
    ensures capacity { nodes.new.capacity ≡ nodes.old.capacity }
{
    let depth = node_at(nodes, at).depth;
    let hung = nodes.insert_reserved(Node {
        key,
        number,
        depth: depth + 1,
        parent: Some(at),
        left: None,
        right: None,
    });
    set_child(nodes, at, is_right(key, depth), Some(hung));
    hung
}

/// Makes the first node of a tree, and answers where it stands.
pub fn plant(nodes: &mut Slab<Node>, key: u64, number: usize) -> usize
    requires { HasRoomFor nodes.old 1 }
    ensures vacant { get nodes.old result ≡ None }
    ensures there { get nodes.new result ≡ Some (planted key number) }
    ensures others { (i : ℕ) → i ≢ result → get nodes.new i ≡ get nodes.old i }
    ensures len { slab_len nodes.new ≡ slab_len nodes.old + 1 }
    ensures capacity { nodes.new.capacity ≡ nodes.old.capacity }
{
    nodes.insert_reserved(Node {
        key,
        number,
        depth: 0,
        parent: None,
        left: None,
        right: None,
    })
}

/// Takes a leaf away.
pub fn take_leaf(nodes: &mut Slab<Node>, root: &mut Option<usize>, leaf: usize) -> Node
    requires sound { IsSound (get nodes.old) root.old }
    requires leaf { IsLeafBelow (get nodes.old) leaf leaf }
    ensures taken { get nodes.old leaf ≡ Some result }
    ensures sound { IsSound (get nodes.new) root.new }
    ensures others { AllBut (get nodes.old) (get nodes.new) leaf }
    ensures len { slab_len nodes.new + 1 ≡ slab_len nodes.old }
    ensures capacity { nodes.new.capacity ≡ nodes.old.capacity }
{
    let node = nodes.remove(leaf);
    match node.parent {
        None => *root = None,
        Some(parent) => {
            let right = is_right(node.key, node.depth - 1);
            set_child(nodes, parent, right, None);
        }
    }
    node
}

/// Puts a number under a key, in place of the one that is there.
pub fn put(nodes: &mut Slab<Node>, root: &mut Option<usize>, key: u64, number: usize)
    requires sound { IsSound (get nodes.old) root.old }
    requires room { HasRoomFor nodes.old 1 }
    ensures sound { IsSound (get nodes.new) root.new }
    ensures numbers { (q : ℕ) → number_of (entries_of nodes.new.slots) q
        ≡ after_put key number (entries_of nodes.old.slots) q }
    ensures len { slab_len nodes.new
        ≡ (if is_some (number_of (entries_of nodes.old.slots) key) then slab_len nodes.old
        else slab_len nodes.old + 1) }
    ensures capacity { nodes.new.capacity ≡ nodes.old.capacity }
{
    let top = match *root {
        Some(top) => top,
        None => {
            *root = Some(plant(nodes, key, number));
            return;
        }
    };
    let at = reach(nodes, top, key);
    if node_at(nodes, at).key == key {
        set_entry(nodes, at, key, number);
    } else {
        hang(nodes, at, key, number);
    }
}

/// Where the node with a key stands.
pub fn locate(nodes: &Slab<Node>, root: Option<usize>, key: u64) -> Option<usize>
    requires { IsSound (get nodes.now) root }
    ensures found { IfSome result (λ i. (n : Node) × (get nodes.now i ≡ Some n) × (n.key ≡ key)) }
    ensures none { IfNone result (number_of (entries_of nodes.now.slots) key ≡ None) }
{
    match root {
        None => None,
        Some(top) => {
            let at = reach(nodes, top, key);
            if node_at(nodes, at).key == key {
                Some(at)
            } else {
                None
            }
        }
    }
}

/// The number under a key.
pub fn number(nodes: &Slab<Node>, root: Option<usize>, key: u64) -> Option<usize>
    requires { IsSound (get nodes.now) root }
    ensures { result ≡ number_of (entries_of nodes.now.slots) key }
{
    match locate(nodes, root, key) {
        None => None,
        Some(at) => Some(node_at(nodes, at).number),
    }
}

/// Takes a key away, and answers its number.
pub fn take(nodes: &mut Slab<Node>, root: &mut Option<usize>, key: u64) -> Option<usize>
    requires sound { IsSound (get nodes.old) root.old }
    ensures taken { result ≡ number_of (entries_of nodes.old.slots) key }
    ensures sound { IsSound (get nodes.new) root.new }
    ensures numbers { (q : ℕ) → number_of (entries_of nodes.new.slots) q
        ≡ after_take key (entries_of nodes.old.slots) q }
    ensures len { slab_len nodes.new ≤ slab_len nodes.old }
    ensures capacity { nodes.new.capacity ≡ nodes.old.capacity }
{
    match locate(nodes, *root, key) {
        None => None,
        Some(at) => {
            let number = node_at(nodes, at).number;
            take_at(nodes, root, at, key);
            Some(number)
        }
    }
}

/// Takes the key of a node away: a leaf from below it goes, and the node gets that leaf's key.
fn take_at(nodes: &mut Slab<Node>, root: &mut Option<usize>, at: usize, key: u64)
    requires sound { IsSound (get nodes.old) root.old }
    requires there { (n : Node) × (get nodes.old at ≡ Some n) × (n.key ≡ key) }
    ensures sound { IsSound (get nodes.new) root.new }
    ensures numbers { (q : ℕ) → number_of (entries_of nodes.new.slots) q
        ≡ after_take key (entries_of nodes.old.slots) q }
    ensures len { slab_len nodes.new + 1 ≡ slab_len nodes.old }
    ensures capacity { nodes.new.capacity ≡ nodes.old.capacity }
{
    let leaf = leaf_below(nodes, at);
    let last = take_leaf(nodes, root, leaf);
    if leaf != at {
        set_entry(nodes, at, last.key, last.number);
    }
}
