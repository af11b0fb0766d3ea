// Trees that come with branch counts (#114): checked, and written.
#![tactic(auto)]

mod checked;
mod judged;
mod written;

pub use checked::check;
pub use written::write_counts;
