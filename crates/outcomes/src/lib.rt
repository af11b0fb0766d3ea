// From the gene trees to the report: the allowed clusters, the search, the outcome and its text.
#![tactic(auto)]

mod print;
pub mod solve;
