//! A node of the tree.

ghost use Rattle.std.specs.Prelude.{◌≡◌, ◌<◌};
ghost use Rattle.key_tree.specs.Trees.{side, child, with_child};

/// A node of the tree: its key with its number, how many nodes are above it, the key of the slab under
/// which its parent stands, and those of its children. Below it on the right are the keys whose bit
/// `depth` is set, and on the left the others; the bits under that are the node's own.
#[derive(Clone, Copy, Debug)]
pub struct Node {
    pub key: u64,
    pub number: usize,
    pub depth: u8,
    pub parent: Option<usize>,
    pub left: Option<usize>,
    pub right: Option<usize>,
}

/// Whether a key goes to the right of a node at this depth.
pub fn is_right(key: u64, depth: u8) -> bool
    requires { depth < 64 }
    ensures { result ≡ side depth key }
{
    (key >> depth) % 2 == 1
}

impl Node {
    /// The child on this side.
    pub fn child(&self, right: bool) -> Option<usize>
        ensures { result ≡ child right self.now }
    {
        if right { self.right } else { self.left }
    }

    /// Sets the child on this side.
    pub fn set_child(&mut self, right: bool, to: Option<usize>)
        ensures { self.new ≡ with_child right to self.old }
    {
        if right {
            self.right = to;
        } else {
            self.left = to;
        }
    }
}
