// The search with its ties: how many trees are as good as the one that it finds.
ghost use Rattle.std.specs.Prelude.{◌≡◌, ◌⊎◌, [], ◌∷◌, ◌++◌, ◌^◌, length};
ghost use Rattle.trees.specs.Decides.{Decides};
ghost use Rattle.roster.specs.Verdict.{verdict, length_test, said_by};
ghost use Rattle.lineages.specs.Work.{shape_tests};
ghost use Rattle.terms.specs.Answers.{found_to};
ghost use Rattle.search.specs.TiesPromise.{with_ties, tied_to, FindsTies};

use crate::searched;
use faults::{Fault, Refusal};
use lineages::checks::shape;
use tables::count_ties;
use terms::{Found, Solution};
use weights::Rooting;

// What the search with ties answers, a type of the C interface: what the search does, and how many trees reach its score.
#[repr(C)]
#[derive(Clone, Copy)]
pub struct Tied {
    pub number: u32,
    pub place: usize,
    pub score: usize,
    pub ties: u64,
    pub numbers: [u16; 32],
}

// An answer of the search, with its ties.
fn with_ties(found: Found, ties: u64) -> Tied
    ensures { result ≡ with_ties found ties }
{
    let numbers = found.numbers;
    Tied {
        number: found.number,
        place: found.place,
        score: found.score,
        ties,
        numbers,
    }
}

impl From<Result<(Solution, u64), Refusal>> for Tied {
    ghost from_gives = { λ outcome tied. tied ≡ tied_to outcome };

    // A refused call has no ties.
    fn from(outcome: Result<(Solution, u64), Refusal>) -> Tied {
        match outcome {
            Ok((solution, ties)) => with_ties(Found::from(Ok(solution)), ties),
            Err(refusal) => with_ties(Found::from(Err(refusal)), 0),
        }
    }
}

// 1, 11 or 12 where n, count, the gene entries that are lent or the third table are at fault. All are at place 0.
fn ties_shape(n: usize, genes: &[u16], count: usize, ties: &[u64]) -> Result<(), Refusal>
    ensures { said_by result ≡ verdict (shape_tests n genes.now count ++ (length_test (length ties.now) (2 ^ n) ∷ [])) }
{
    shape(n, genes, count)?;
    if ties.len() < clusters::single(n) as usize {
        return Err(Fault::ShortSlice.at(0));
    }
    Ok(())
}

// Whether a search with this outcome has filled its tables: it has where it looked for a tree, though it found none.
fn filled(found: Result<Solution, Refusal>) -> bool
    ensures { Decides result (((found_to found).number ≡ 0) ⊎ ((found_to found).number ≡ 14)) }
{
    match found {
        Ok(_) => true,
        Err(refusal) => refusal.fault == Fault::NoTree,
    }
}

// The search and its ties; the third table is filled where the search has filled the other two. `search_ties` and `outcomes` call it.
pub fn searched_with_ties(
    rooting: Rooting,
    n: usize,
    genes: &[u16],
    count: usize,
    allowed: &[u8],
    scores: &mut [u32],
    splits: &mut [u16],
    ties: &mut [u64],
) -> Result<(Solution, u64), Refusal>
    ensures { FindsTies rooting n genes.now count allowed.now scores.old splits.old ties.old (tied_to result) scores.new splits.new ties.new }
{
    ties_shape(n, genes, count, ties)?;
    let found = searched(rooting, n, genes, count, allowed, scores, splits);
    if filled(found) {
        count_ties(n, scores, splits, ties);
    }
    let solution = found?;
    let all = clusters::whole(n) as usize;
    Ok((solution, ties[all]))
}

// The search, and how many trees over the allowed clusters reach its score; the third table is filled from the other two.
pub fn search_ties(
    rooting: Rooting,
    n: usize,
    genes: &[u16],
    count: usize,
    allowed: &[u8],
    scores: &mut [u32],
    splits: &mut [u16],
    ties: &mut [u64],
) -> Tied
    ensures { FindsTies rooting n genes.now count allowed.now scores.old splits.old ties.old result scores.new splits.new ties.new }
{
    Tied::from(searched_with_ties(rooting, n, genes, count, allowed, scores, splits, ties))
}
