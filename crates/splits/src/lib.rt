// The best split of a cluster into two parts, by the scores of its parts; and how many trees are as good as the best.
#![tactic(auto)]

mod parts;
mod tied;

ghost use Rattle.std.specs.Prelude.{◌≡◌, ◌+◌, ◌-◌, ◌<◌, ◌≤◌, length, get_or};
ghost use Rattle.clusters.specs.Sets.{size};
ghost use Rattle.splits.specs.WellFormed.{LowPart};
ghost use Rattle.splits.specs.Work.{Scored, better_split, BestSplit};

use parts::LowParts;
pub use tied::tied_splits;

// The entry of a cluster that has no tree: a number, as the score table is lent by C (`splits: Least.no_tree`).
pub const NO_TREE: u32 = 4294967295;

// The least score of two parts, and the low one of them.
#[derive(Clone, Copy)]
pub struct Split {
    pub score: u32,
    pub low: u32,
}

// No split yet: the mark of the score table, and no low part. While the parts are visited an `Option` of a split takes the search half as long again (docs/TIMES.md).
const NONE_YET: Split = Split {
    score: NO_TREE,
    low: 0,
};

// The split of a at the low part, where both parts have a tree and it scores no more than the best so far.
fn better(scores: &[u32], a: u32, low: u32, best: Split) -> Split
    requires a_in_bounds { a ≤ length scores.now }
    requires low_part { LowPart a low }
    requires scored { Scored a scores.now }
    ensures { result ≡ better_split (get_or scores.now low 0) (get_or scores.now (a - low) 0) low best }
{
    let x = scores[low as usize];
    if x == NO_TREE {
        return best;
    }
    let y = scores[(a - low) as usize];
    if y == NO_TREE {
        return best;
    }
    let held = best.score;
    if x + y <= held {
        return Split { score: x + y, low };
    }
    best
}

// The best split of a, if there is one. Its low parts are visited from the largest down, and an equal one replaces what was found, so that of equals the smallest stays. `tables` calls it, with the entries of all smaller clusters there.
pub fn best_split(scores: &[u32], a: u32) -> Option<Split>
    requires a_in_bounds { a ≤ length scores.now }
    requires bound { 2 ≤ size a }
    requires scored { Scored a scores.now }
    ensures { BestSplit scores.now a result }
{
    let mut best = NONE_YET;
    for low in LowParts::of(a) {
        best = better(scores, a, low, best);
    }
    if best.score == NO_TREE {
        return None;
    }
    Some(best)
}
