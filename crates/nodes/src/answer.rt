// What reading a node answers: the set of its leaves, and the place behind it.

// Where reading is: the place, the species met so far, and how many clusters are stored.
#[derive(Clone, Copy, Debug, PartialEq, Eq)]
pub struct Cursor {
    pub at: usize,
    pub seen: u32,
    pub stored: usize,
}

// A node, or the nodes of a list: the set of its leaves, and where reading goes on.
#[derive(Clone, Copy, Debug, PartialEq, Eq)]
pub struct Node {
    pub mask: u32,
    pub next: Cursor,
}
