// The search on a stand: its checks, the weights of all clusters of species, then both tables and their tree.
ghost use Rattle.std.specs.Prelude.{take};
ghost use Rattle.trees.specs.Records.{wide_records_in};
ghost use Rattle.weights.specs.Stand.{stand_weight};
ghost use Rattle.terms.specs.Allowed.{allowed_in};
ghost use Rattle.terms.specs.Answers.{found_to};
ghost use Rattle.solver.specs.Work.{SolvesFor};
ghost use Rattle.stand.specs.Work.{Solvable};
ghost use Rattle.stand.specs.Promise.{StandFinds};

use crate::checks::{Given, judge_records, opened};
use faults::Refusal;
use search::long_enough;
use solver::choose;
use sums::stand::fill_stand;
use terms::allowing::judge_allowed;
use terms::{Found, Solution};

// Fills both tables for gene trees that were checked, and answers the tree that they choose. `solver::solve` is the same over other weights: two calls, no plainer as one.
fn solve_stand(
    n: usize,
    groups: &[u32],
    genes: &[u32],
    count: usize,
    allowed: &[u8],
    scores: &mut [u32],
    splits: &mut [u16],
) -> Result<Solution, Refusal>
    requires { Solvable n groups.now genes.now count allowed.now scores.old splits.old }
    ensures { SolvesFor (λ a. stand_weight (take n groups.now) (wide_records_in count genes.now) a) n (allowed_in n allowed.now) scores.old splits.old (found_to result) scores.new splits.new }
{
    let entries = clusters::single(n) as usize;
    // the split table is work space until it is filled
    fill_stand(
        n,
        groups,
        genes,
        count,
        &mut scores[..entries],
        &mut splits[..entries],
    );
    choose(n, Some(allowed), scores, splits)
}

// The checks, then the tree that both tables choose.
fn searched(
    given: &Given,
    allowed: &[u8],
    scores: &mut [u32],
    splits: &mut [u16],
) -> Result<Solution, Refusal>
    ensures { StandFinds given.now.line.now given.now.individuals.now given.now.mapping.now given.now.genes.now given.now.count allowed.now scores.old splits.old (found_to result) scores.new splits.new }
{
    let Given { genes, count, .. } = *given;
    let stand = opened(given)?;
    let n = stand.species;
    long_enough(clusters::single(n) as usize, allowed, scores, splits)?;
    judge_records(stand.individuals, genes, count)?;
    judge_allowed(n, allowed)?;
    solve_stand(n, &stand.groups, genes, count, allowed, scores, splits)
}

// The first least-scoring binary species tree over the allowed clusters, for gene trees on individuals; both tables are filled on the way.
pub fn search(
    line: &[u8],
    individuals: &[u8],
    mapping: &[u8],
    genes: &[u32],
    count: usize,
    allowed: &[u8],
    scores: &mut [u32],
    splits: &mut [u16],
) -> Found
    ensures { StandFinds line.now individuals.now mapping.now genes.now count allowed.now scores.old splits.old result scores.new splits.new }
{
    let given = Given {
        line,
        individuals,
        mapping,
        genes,
        count,
    };
    Found::from(searched(&given, allowed, scores, splits))
}
