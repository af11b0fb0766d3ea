// Both tables, for any weights: the score table holds the weights at first, and each entry becomes a score as the clusters rise. The third is filled from both.
#![tactic(auto)]

mod tied;
mod tree;

ghost use Rattle.std.specs.Prelude.{◌≡◌, Bool, true, ℕ, ◌+◌, ◌-◌, ◌<◌, ◌≤◌, length, IfSome, option_copied};
ghost use Rattle.clusters.specs.Sets.{size};
ghost use Rattle.terms.specs.Allowed.{allowed_for};
ghost use Rattle.tables.specs.Work.{Next, Settles, Fillable, Fills};

use splits::{NO_TREE, best_split};
use terms::allowing::is_allowed_for;
pub use tied::count_ties;
pub use tree::collect;

// The score of a cluster: its own weight, once, and the score of its two parts.
fn with_own(own: u32, parts: u32) -> u32
    requires own_bound { own ≤ 131072 }
    requires parts_bound { parts < 16777216 }
    ensures { result ≡ own + parts }
{
    own + parts
}

// The entries of a cluster of two or more species that is allowed: its own weight and its best split.
fn join(scores: &mut [u32], splits: &mut [u16], a: usize)
    requires next { Next a scores.old splits.old }
    requires bound { 2 ≤ size a }
    ensures { (ok : ℕ → Bool) → ok a ≡ true → Settles ok a scores.old splits.old scores.new splits.new }
{
    match best_split(scores, a as u32) {
        Some(best) => {
            splits[a] = best.low as u16;
            scores[a] = with_own(scores[a], best.score);
        }
        None => {
            splits[a] = 0;
            scores[a] = NO_TREE;
        }
    }
}

// The entries of one cluster, those of all smaller ones being there.
fn settle(n: usize, allowed: Option<&[u8]>, scores: &mut [u32], splits: &mut [u16], a: usize)
    requires next { Next a scores.old splits.old }
    requires n_bound { n ≤ 16 }
    requires a_in_bounds { IfSome allowed (λ bytes. a < length bytes.now) }
    ensures { Settles (allowed_for (option_copied allowed.entry) n) a scores.old splits.old scores.new splits.new }
{
    if !is_allowed_for(n, allowed, a) {
        scores[a] = NO_TREE;
        splits[a] = 0;
        return;
    }
    if clusters::size(a as u32) == 1 {
        splits[a] = 0;
        return;
    }
    join(scores, splits, a);
}

// Fills the first 2^n entries of both tables, the score table holding the weights. `solver` calls it, for `search`, whose checks have passed then.
pub fn fill(n: usize, allowed: Option<&[u8]>, scores: &mut [u32], splits: &mut [u16])
    requires { Fillable n (option_copied allowed) scores.old splits.old }
    ensures { Fills n (allowed_for (option_copied allowed.entry) n) scores.old splits.old scores.new splits.new }
{
    scores[0] = NO_TREE;
    splits[0] = 0;
    let entries = clusters::single(n) as usize;
    for a in 1..entries {
        settle(n, allowed, scores, splits, a);
    }
}
