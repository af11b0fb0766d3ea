// A stored case taken apart: its fields, numbers and bytes, and the room that its call is lent.
#![tactic(auto)]

pub mod fields;
pub mod packed;
pub mod room;
mod token;
