// Several individuals of a species (#110): the calls on a stand, which is two rosters and a mapping.
#![tactic(auto)]

mod checks;
mod counting;
mod searching;

ghost use Rattle.stand.specs.Promise.{StandJudged};

pub use counting::{score, weight};
use roster::Reply;
pub use searching::search;

// A stand judged: how many individuals it has.
pub fn judge(line: &[u8], individuals: &[u8], mapping: &[u8]) -> Reply
    ensures { StandJudged line.now individuals.now mapping.now result }
{
    roster::reply_to(mapping::judge(line, individuals, mapping).map(|stand| stand.individuals))
}
