// What is answered of a node's number.
// Where a node's name stands in the text, and its owner: one more than its parent, 0 at the root.
// The owner is a number, and a node beyond the last has none, since the definitions Declared (Tale.antt) and node_in (Seek.antt) have it so.
#[derive(Clone, Copy)]
pub struct NodeFound {
    pub from: usize,
    pub to: usize,
    pub owner: usize,
}

// A node beyond the last has no name and no owner.
pub const NOBODY: NodeFound = NodeFound {
    from: 0,
    to: 0,
    owner: 0,
};
