// How many trees are as good as the best, for every cluster: a pass of its own over both filled tables.
ghost use Rattle.tables.specs.Work.{TieNext, Ties, Tieable, FillsTies};

use splits::{NO_TREE, tied_splits};

// The ties of one cluster, those of all smaller ones being there.
fn ties_of(scores: &[u32], splits: &[u16], ties: &[u64], a: usize) -> u64
    requires { TieNext a scores.now splits.now ties.now }
    ensures { Ties a scores.now splits.now ties.now result }
{
    if scores[a] == NO_TREE {
        return 0;
    }
    let low = splits[a] as usize;
    // a single species
    if low == 0 {
        return 1;
    }
    let least = scores[low] as u64 + scores[a - low] as u64;
    tied_splits(scores, ties, a as u32, least)
}

// Fills the first 2^n entries of the third table from the other two. `search` calls it, with the tables that `fill` filled.
pub fn count_ties(n: usize, scores: &[u32], splits: &[u16], ties: &mut [u64])
    requires { Tieable n scores.now splits.now ties.old }
    ensures { FillsTies n scores.now splits.now ties.old ties.new }
{
    let entries = clusters::single(n) as usize;
    for a in 0..entries {
        let count = ties_of(scores, splits, ties, a);
        ties[a] = count;
    }
}
