// The text of a node of a tree, down to its leaves, and the length of the whole.
#![tactic(auto)]

mod child;
mod forms;
pub mod label;
pub mod node;
pub mod note;
