// A reflected tree's nodes, side by side on the stack: no heap.

// How many nodes a tree may have.
pub(crate) const MOST_NODES: usize = 64;

// A node: its upper and lower id, the number of its children, how many groups its tree ends as, and the place past its last descendant.
#[derive(Clone, Copy)]
pub(crate) struct Node {
    pub(crate) upper: u32,
    pub(crate) lower: u32,
    pub(crate) children: u32,
    pub(crate) groups: u32,
    pub(crate) end: usize,
}

// A place before a node is read.
pub(crate) const NO_NODE: Node = Node {
    upper: 0,
    lower: 0,
    children: 0,
    groups: 0,
    end: 0,
};
