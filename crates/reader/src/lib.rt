// Tree text read to a record, with every refusal.
#![tactic(auto)]

mod tree;
pub mod wide;

pub use tree::{draw, read, read_into};

// What a text is read as: a species tree has every species, a gene tree may lack some.
#[derive(Clone, Copy)]
pub enum Kind {
    Species,
    Gene,
}

// How many names the roster has at most, and how many parentheses may be open at once.
#[derive(Clone, Copy)]
pub struct Limits {
    pub(crate) most: usize,
    pub(crate) room: usize,
}

// A tree that was read: its record, and the offset just after its `;`.
#[derive(Clone, Copy)]
pub struct Drawn {
    pub numbers: [u16; 32],
    pub next: usize,
}

// What `read` answers, a type of the C interface: number and place, the offset just after the tree's `;`, and the tree's record.
#[repr(C)]
#[derive(Clone, Copy)]
pub struct Reading {
    pub number: u32,
    pub place: usize,
    pub next: usize,
    pub numbers: [u16; 32],
}
