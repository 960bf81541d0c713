//! Numbers under keys of 64 bits: a search tree in room that is reserved when it is made.
#![tactic(auto)]

mod node;
mod nodes;
mod tree;

pub use tree::KeyTree;
