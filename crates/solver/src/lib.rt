// The best tree of gene trees that were checked: all weights, the two tables, and the record of the tree that they choose.
#![tactic(auto)]

mod tree;

ghost use Rattle.std.specs.Prelude.{option_copied};
ghost use Rattle.trees.specs.Records.{records_in};
ghost use Rattle.terms.specs.Allowed.{allowed_for};
ghost use Rattle.terms.specs.Answers.{found_to};
ghost use Rattle.tables.specs.Work.{Fillable};
ghost use Rattle.solver.specs.Work.{Checked, SolvesWeighed, Solves};

use faults::{Fault, Refusal};
use terms::Solution;
use weights::Rooting;

// Fills both tables from the weights that the score table holds, and answers the tree that they choose for all species. `solve` calls it, and calls that fill in weights of their own.
pub fn choose(
    n: usize,
    allowed: Option<&[u8]>,
    scores: &mut [u32],
    splits: &mut [u16],
) -> Result<Solution, Refusal>
    requires { Fillable n (option_copied allowed) scores.old splits.old }
    ensures { SolvesWeighed n (allowed_for (option_copied allowed.entry) n) scores.old splits.old (found_to result) scores.new splits.new }
{
    tables::fill(n, allowed, scores, splits);
    let all = clusters::whole(n) as usize;
    let score = scores[all];
    if score == splits::NO_TREE {
        return Err(Fault::NoTree.at(0));
    }
    Ok(tree::solution(splits, all, score))
}

// The weights of gene trees that were checked, then both tables and their tree. `search` and `counts` call it, each behind all its checks.
pub fn solve(
    rooting: Rooting,
    n: usize,
    genes: &[u16],
    count: usize,
    allowed: Option<&[u8]>,
    scores: &mut [u32],
    splits: &mut [u16],
) -> Result<Solution, Refusal>
    requires { Checked rooting n genes.now count (option_copied allowed) scores.old splits.old }
    ensures { Solves rooting n (records_in count genes.now) (allowed_for (option_copied allowed.entry) n) scores.old splits.old (found_to result) scores.new splits.new }
{
    let entries = clusters::single(n) as usize;
    // the split table is work space until it is filled
    sums::fill(
        rooting,
        n,
        genes,
        count,
        &mut scores[..entries],
        &mut splits[..entries],
    );
    choose(n, allowed, scores, splits)
}
