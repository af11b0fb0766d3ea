// The tokens of tree text: blanks, names, numbers, what stands behind a node, and where each is refused.
#![tactic(auto)]

mod answer;
pub mod behind;
mod cursor;
mod number;
mod value;

pub use answer::{Figure, Figures, Refusal};
pub use behind::below;
pub use cursor::{blanks, stray};
pub use labels::{next_is, next_label};
