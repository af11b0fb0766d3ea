// A slow engine for the sceptical (#108): all binary trees on the species, one after the other, those over allowed clusters scored, the first least one kept. It knows nothing of the search and its tables.
#![tactic(auto)]

mod numbering;

ghost use Rattle.std.specs.Prelude.{◌≡◌, List, ℕ, ◌+◌, ◌^◌, ◌≤◌, ◌<◌, length, IfSome};
ghost use Rattle.std.proofs.Math.Option.{Option};
ghost use Rattle.clusters.specs.Sets.{whole};
ghost use Rattle.trees.specs.Records.{listed, records_in, SpeciesValid};
ghost use Rattle.trees.specs.Valid.{every};
ghost use Rattle.weights.specs.Count.{weight};
ghost use Rattle.weights.specs.declared.Rooting.{Rooting};
ghost use Rattle.roster.specs.Verdict.{verdict, said_by};
ghost use Rattle.lineages.specs.Work.{genes_tests, said};
ghost use Rattle.terms.specs.Allowed.{allowed_in};
ghost use Rattle.terms.specs.Answers.{found_to};
ghost use Rattle.splits.specs.BinaryTrees.{Binary, trees_on};
ghost use Rattle.splits.specs.Best.{best_for, found_by};
ghost use Rattle.plain.specs.Promise.{FindsPlainly};
ghost use Rattle.plain.specs.Work.{Numbered, Keeps, Adds, BestOfFirst, PlainShaped, ShapeJudged};

use faults::{Fault, Refusal};
use lineages::checks::{judge_genes, shape};
use numbering::{tree_of, trees_on};
pub use terms::Found;
use terms::Solution;
use terms::allowing::{is_allowed, judge_allowed};
use weights::Rooting;
use weights::adding::weigh_tree;

// The best tree so far: its score, and the number of the first tree that has it.
#[derive(Clone, Copy)]
struct Best {
    score: usize,
    number: u64,
}

// The tree of this number where it scores less than the best so far, which stays else: of equals the first.
fn better(best: Option<Best>, score: usize, number: u64) -> Option<Best>
    ensures { Adds best score number result }
{
    match best {
        Some(held) if held.score <= score => best,
        _ => Some(Best { score, number }),
    }
}

// What the call was given, where its checks find nothing in n, the lengths and the gene trees, which are then in order (`Calling.genes_in_order`).
#[derive(Clone, Copy)]
struct Asked<'a> {
    rooting: Rooting,
    n: usize,
    genes: &'a [u16],
    count: usize,
    allowed: &'a [u8],
    ghost shaped: { PlainShaped n genes.now count allowed.now },
    ghost passed: { said 0 0 ≡ verdict (genes_tests rooting n (records_in count genes.now)) },
}

impl Asked<'_> {
    // Whether every cluster of the tree is allowed.
    fn is_over_allowed(&self, tree: &[u16]) -> bool
        requires { SpeciesValid self.now.n tree.now }
        ensures { result ≡ every (allowed_in self.now.n self.now.allowed.now) (listed tree.now) }
    {
        let m = tree[0] as usize;
        for a in &tree[1..=m] {
            if !is_allowed(self.n, self.allowed, *a as usize) {
                return false;
            }
        }
        true
    }

    // The best so far, once the tree of this number was visited: it is passed over where one of its clusters is not allowed.
    fn visit(&self, number: u64, best: Option<Best>) -> Option<Best>
        requires number_in_bounds { number < length (trees_on (whole self.now.n)) }
        requires best_of_first { BestOfFirst self.now.rooting self.now.n self.now.genes.now self.now.count self.now.allowed.now number best }
        ensures { BestOfFirst self.now.rooting self.now.n self.now.genes.now self.now.count self.now.allowed.now (number + 1) result }
    {
        let tree = tree_of(clusters::whole(self.n), number);
        let numbers = tree.numbers;
        if self.is_over_allowed(&numbers) {
            let score = weigh_tree(self.rooting, self.genes, self.count, &numbers);
            return better(best, score, number);
        }
        best
    }

    // The first least-scoring one of all trees on n species over allowed clusters.
    fn first_least(&self) -> Option<Best>
        ensures { Keeps (weight self.now.rooting (records_in self.now.count self.now.genes.now)) (whole self.now.n) (best_for self.now.rooting self.now.n (records_in self.now.count self.now.genes.now) self.now.allowed.now (whole self.now.n)) result }
    {
        let trees = trees_on(clusters::whole(self.n));
        let mut best = None;
        for number in 0..trees {
            best = self.visit(number, best);
        }
        best
    }
}

// The tree that was kept, with its score and its record, or no tree.
fn answer(n: usize, best: Option<Best>) -> Result<Solution, Refusal>
    requires n_bound { n ≤ 16 }
    requires numbered { IfSome best (λ held. Numbered (whole n) held.number) }
    ensures { (rooting : Rooting) (genes : List (List ℕ)) (t : Option Binary) → Keeps (weight rooting genes) (whole n) t best → found_to result ≡ found_by rooting t genes }
{
    match best {
        Some(Best { score, number }) => {
            let tree = tree_of(clusters::whole(n), number);
            let numbers = tree.numbers;
            Ok(Solution { score, numbers })
        }
        None => Err(Fault::NoTree.at(0)),
    }
}

// 1, 17, 11 or 12 where n, count or a slice that is lent is at fault. All are at place 0.
fn plain_shape(n: usize, genes: &[u16], count: usize, allowed: &[u8]) -> Result<(), Refusal>
    ensures { ShapeJudged n genes.now count allowed.now (said_by result) }
{
    if 16 < n {
        return Err(Fault::FaultyRoster.at(0));
    }
    if 7 < n {
        return Err(Fault::TooLarge.at(0));
    }
    // 1 for no species is said here
    shape(n, genes, count)?;
    if allowed.len() < clusters::single(n) as usize {
        return Err(Fault::ShortSlice.at(0));
    }
    Ok(())
}

// The checks, then the first least-scoring tree.
fn found_plainly(
    rooting: Rooting,
    n: usize,
    genes: &[u16],
    count: usize,
    allowed: &[u8],
) -> Result<Solution, Refusal>
    ensures { FindsPlainly rooting n genes.now count allowed.now (found_to result) }
{
    plain_shape(n, genes, count, allowed)?;
    judge_genes(rooting, n, genes, count)?;
    judge_allowed(n, allowed)?;
    let asked = Asked {
        rooting,
        n,
        genes,
        count,
        allowed,
    };
    answer(n, asked.first_least())
}

// The first least-scoring binary tree over the allowed clusters, by going through all binary trees; for at most seven species.
pub fn plain(rooting: Rooting, n: usize, genes: &[u16], count: usize, allowed: &[u8]) -> Found
    ensures { FindsPlainly rooting n genes.now count allowed.now result }
{
    Found::from(found_plainly(rooting, n, genes, count, allowed))
}
