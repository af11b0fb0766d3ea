// How many trees on a cluster are as good as the best, by the scores and the ties of its parts.
ghost use Rattle.std.specs.Prelude.{◌≡◌, ◌+◌, ◌*◌, ◌<◌, ◌≤◌, length, get_or};
ghost use Rattle.clusters.specs.Sets.{size};
ghost use Rattle.splits.specs.Work.{tied_at, ties_over, Counted, Room};

use crate::parts::LowParts;

// The ties so far and those of one more least split: each tree of the one part with each of the other.
fn with_split(count: u64, low: u64, other: u64) -> u64
    requires { count + low * other < 18446744073709551616 }
    ensures { result ≡ count + low * other }
{
    count + low * other
}

// The ties so far, with those of the split of a at the low part where the scores of its parts add up to the least sum.
fn add_split(scores: &[u32], ties: &[u64], a: u32, low: u32, least: u64, count: u64) -> u64
    requires a_in_bounds { a ≤ length scores.now }
    requires a_in_bounds_2 { a ≤ length ties.now }
    requires room { Room a low count ties.now }
    ensures { result ≡ count + tied_at (λ b. get_or scores.now b 0) (λ b. get_or ties.now b 0) a least low }
{
    let part = low as usize;
    let rest = (a - low) as usize;
    // the mark of a part without a tree is more than any least sum
    let sum = scores[part] as u64 + scores[rest] as u64;
    if sum == least {
        return with_split(count, ties[part], ties[rest]);
    }
    count
}

// The ties of a over all its low parts, visited as `best_split` visits them. `tables` calls it, with the entries of all smaller clusters there.
pub fn tied_splits(scores: &[u32], ties: &[u64], a: u32, least: u64) -> u64
    requires a_in_bounds { a ≤ length scores.now }
    requires a_in_bounds_2 { a ≤ length ties.now }
    requires a_bound { a < 65536 }
    requires bound { 2 ≤ size a }
    requires counted { Counted a ties.now }
    ensures { result ≡ ties_over (λ b. get_or scores.now b 0) (λ b. get_or ties.now b 0) a least }
{
    let mut count = 0;
    for low in LowParts::of(a) {
        count = add_split(scores, ties, a, low, least, count);
    }
    count
}
