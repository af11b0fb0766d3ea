// The tree that the split table chooses.
ghost use Rattle.std.specs.Prelude.{◌≡◌, ◌+◌, ◌-◌, ◌<◌, length};
ghost use Rattle.std.proofs.lemmas.List.Edits.{sets};
ghost use Rattle.splits.specs.BinaryTrees.{Binary, root, clusters_in};
ghost use Rattle.tables.specs.Work.{Chosen, Chooses};

// Stores the clusters of the tree on a from `stored` on: a, then those of its low child, then those of the other. How many are stored then.
// `solver` calls it, with the table that `fill` filled.
pub fn collect(splits: &[u16], a: usize, clusters: &mut [u32], stored: usize) -> usize
    requires a_in_bounds { a < length splits.now }
    requires a_bound { a < 65536 }
    requires chooses { Chooses splits.now a (length clusters.old - stored) }
    ensures { (t : Binary) → root t ≡ a → Chosen splits.now t → (result ≡ stored + length (clusters_in t)) × (clusters.new ≡ sets clusters.old stored (clusters_in t)) }
{
    clusters[stored] = a as u32;
    let low = splits[a] as usize;
    if low == 0 {
        return stored + 1;
    }
    let next = collect(splits, low, clusters, stored + 1);
    collect(splits, a - low, clusters, next)
}
