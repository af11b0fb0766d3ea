// Extra lineages counted in gene trees that were checked: in one, over all of them, over a species tree; and the clusters that they show, marked.
#![tactic(auto)]

pub mod adding;
mod count;
pub mod marking;
pub mod wide;

// How gene trees are counted: with their roots as drawn, or as trees without a root.
#[derive(Clone, Copy, Debug, PartialEq, Eq)]
pub enum Rooting {
    Rooted,
    Unrooted,
}
