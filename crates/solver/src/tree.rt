// The solution with the tree that the split table chooses.
ghost use Rattle.std.specs.Prelude.{◌≡◌, ◌<◌, length};
ghost use Rattle.trees.specs.Records.{record_of};
ghost use Rattle.splits.specs.BinaryTrees.{Binary, root, clusters_in};
ghost use Rattle.tables.specs.Work.{Chosen, Chooses};

use tables::collect;
use terms::Solution;

// The tree on all species, with its score.
pub(crate) fn solution(splits: &[u16], all: usize, score: u32) -> Solution
    requires all_in_bounds { all < length splits.now }
    requires all_bound { all < 65536 }
    requires chooses { Chooses splits.now all 31 }
    ensures { (t : Binary) → root t ≡ all → Chosen splits.now t → result ≡ record { score = score; numbers = record_of (clusters_in t) } }
{
    let mut clusters = [0u32; 32];
    let count = collect(splits, all, &mut clusters, 0);
    let tree = sorting::record_of(&clusters, count);
    let numbers = tree.numbers;
    Solution {
        score: score as usize,
        numbers,
    }
}
