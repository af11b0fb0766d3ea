// The search: its checks in 01's order, then the best tree over the allowed clusters; and the search with its ties.
#![tactic(auto)]

mod tied;

ghost use Rattle.std.specs.Prelude.{◌≡◌};
ghost use Rattle.roster.specs.Verdict.{verdict, said_by};
ghost use Rattle.terms.specs.Answers.{found_to};
ghost use Rattle.search.specs.Promise.{Finds};
ghost use Rattle.search.specs.Work.{long_tests};

use faults::{Fault, Refusal};
use lineages::checks::{judge_genes, shape};
use solver::solve;
pub use terms::Found;
use terms::Solution;
use terms::allowing::judge_allowed;
pub use tied::{Tied, search_ties, searched_with_ties};
use weights::Rooting;

// 12 where fewer entries than these are there in the allowed set or in one of both tables. `stand` calls it too.
pub fn long_enough(
    entries: usize,
    allowed: &[u8],
    scores: &[u32],
    splits: &[u16],
) -> Result<(), Refusal>
    ensures { said_by result ≡ verdict (long_tests entries allowed.now scores.now splits.now) }
{
    if allowed.len() < entries || scores.len() < entries || splits.len() < entries {
        return Err(Fault::ShortSlice.at(0));
    }
    Ok(())
}

// The checks, then the tree that both tables choose. `search` and `search_ties` call it.
fn searched(
    rooting: Rooting,
    n: usize,
    genes: &[u16],
    count: usize,
    allowed: &[u8],
    scores: &mut [u32],
    splits: &mut [u16],
) -> Result<Solution, Refusal>
    ensures { Finds rooting n genes.now count allowed.now scores.old splits.old (found_to result) scores.new splits.new }
{
    shape(n, genes, count)?;
    long_enough(clusters::single(n) as usize, allowed, scores, splits)?;
    judge_genes(rooting, n, genes, count)?;
    judge_allowed(n, allowed)?;
    solve(rooting, n, genes, count, Some(allowed), scores, splits)
}

// The first least-scoring binary tree over the allowed clusters; both tables are filled on the way.
pub fn search(
    rooting: Rooting,
    n: usize,
    genes: &[u16],
    count: usize,
    allowed: &[u8],
    scores: &mut [u32],
    splits: &mut [u16],
) -> Found
    ensures { Finds rooting n genes.now count allowed.now scores.old splits.old result scores.new splits.new }
{
    Found::from(searched(rooting, n, genes, count, allowed, scores, splits))
}
