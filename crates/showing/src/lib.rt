// Answers shown on a writer: numbers, texts, records, and the fingerprints of what a call was lent.
#![tactic(auto)]

pub mod lent;
pub mod show;
pub mod tables;
