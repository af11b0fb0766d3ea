// A species text that came with branch counts, checked: each number behind a node against the weight of its cluster, and the tree's score against the least.
ghost use Rattle.std.specs.Prelude.{◌≡◌, ◌^◌, ◌≤◌, length};
ghost use Rattle.roster.specs.Judged.{reply_to};
ghost use Rattle.search.specs.Candidates.{BinarySpecies};
ghost use Rattle.counts.specs.Promise.{is_right, Checks};
ghost use Rattle.counts.specs.Work.{AllEnd, CountsJudged, DrawnJudged, Distances};

use crate::judged::{GeneTrees, judge};
use branches::next_end;
use faults::{Fault, Refusal};
use reader::{Kind, read_into};
use roster::{Reply, reply_to};
use solver::solve;
use weights::Rooting;

// Whether a node has a count, and it is the weight.
fn is_right(count: Option<usize>, weight: usize) -> bool
    ensures { result ≡ is_right weight count }
{
    match count {
        Some(count) => count == weight,
        None => false,
    }
}

// 23 at the end of the first node whose count is missing or wrong, and else no refusal: of as many nodes that end from `start` on as `found` has clusters, which are
// theirs. `checked` calls it, of a text that was read to these clusters.
fn compare(text: &[u8], start: usize, trees: &GeneTrees, found: &[u32]) -> Result<(), Refusal>
    requires { AllEnd (length found.now) text.now start }
    ensures { CountsJudged text.now start trees.now.genes.now trees.now.count found.now result }
{
    let mut at = start;
    for a in found {
        let end = next_end(text, at);
        let weight = trees.weigh(Rooting::Rooted, *a);
        if !is_right(end.count, weight) {
            return Err(Fault::WrongCount.at(end.place));
        }
        at = end.next;
    }
    Ok(())
}

// 11, 12, 16 or 15 where the gene trees, the tables or the tree are at fault, and else no refusal. `checked` calls it, with the record of the tree that was read on n species.
fn judge_drawn(
    n: usize,
    genes: &[u16],
    count: usize,
    numbers: &[u16],
    scores: &[u32],
    splits: &[u16],
) -> Result<(), Refusal>
    requires le_n { 1 ≤ n }
    requires n_bound { n ≤ 16 }
    requires numbers_len { length numbers.now ≡ 32 }
    ensures { DrawnJudged n genes.now count numbers.now scores.now splits.now result }
{
    let entries = clusters::single(n) as usize;
    let binary = records::binary(numbers, clusters::whole(n));
    judge(n, genes, count, entries, scores, splits, binary)
}

// The score of the tree less the least one; both tables are filled. With every cluster allowed there is a least one. `checked` calls it, behind all its checks.
fn distance(
    trees: &GeneTrees,
    numbers: &[u16],
    scores: &mut [u32],
    splits: &mut [u16],
) -> Result<usize, Refusal>
    requires scores_long { 2 ^ trees.now.n ≤ length scores.old }
    requires splits_long { 2 ^ trees.now.n ≤ length splits.old }
    requires binary_species { BinarySpecies trees.now.n numbers.now }
    ensures { Distances trees.now.n trees.now.genes.now trees.now.count numbers.now scores.old splits.old result scores.new splits.new }
{
    let least = solve(
        Rooting::Rooted,
        trees.n,
        trees.genes,
        trees.count,
        None,
        scores,
        splits,
    )?;
    let score = trees.score(numbers);
    Ok(score - least.score)
}

// The checks of `check` in their order, and the distance behind them.
fn checked(
    line: &[u8],
    text: &[u8],
    start: usize,
    genes: &[u16],
    count: usize,
    scores: &mut [u32],
    splits: &mut [u16],
) -> Result<usize, Refusal>
    ensures { Checks line.now text.now start genes.now count scores.old splits.old (reply_to result) scores.new splits.new }
{
    let mut found = [0; 32];
    let drawn = read_into(Kind::Species, None, line, text, start, &mut found)?;
    // the tree was read over the roster's names, so the roster is good
    let n = roster::judge(line).value;
    let numbers = drawn.numbers;
    judge_drawn(n, genes, count, &numbers, scores, splits)?;
    let trees = GeneTrees { n, genes, count };
    compare(text, start, &trees, &found[..numbers[0] as usize])?;
    distance(&trees, &numbers, scores, splits)
}

// Whether the text, from `start` on, draws a binary tree on the roster with the weight of each node's cluster behind the node; with a yes, the distance of its
// score above the least one, and both tables as the search over all clusters fills them. What is refused leaves both as they were.
pub fn check(
    line: &[u8],
    text: &[u8],
    start: usize,
    genes: &[u16],
    count: usize,
    scores: &mut [u32],
    splits: &mut [u16],
) -> Reply
    ensures { Checks line.now text.now start genes.now count scores.old splits.old result scores.new splits.new }
{
    reply_to(checked(line, text, start, genes, count, scores, splits))
}
