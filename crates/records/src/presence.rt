// Which clusters a record lists: all lie within the whole set, and the whole set and each single species are there.
ghost use Rattle.std.specs.Prelude.{◌≡◌, ℕ, ◌^◌, ◌<◌, ◌≤◌};
ghost use Rattle.clusters.specs.Sets.{Has, Within, single};
ghost use Rattle.trees.specs.Decides.{Decides};
ghost use Rattle.trees.specs.Lists.{Among};

// Whether each of the clusters has a species, and lies within s.
pub(crate) fn inside(clusters: &[u32], s: u32) -> bool
    ensures { Decides result ((a : ℕ) → Among a clusters.now → (1 ≤ a) × Within a s) }
{
    clusters.iter().all(|a| 1 <= *a && clusters::within(*a, s))
}

// Whether a is one of the clusters. `sums` asks it too, of records that were checked.
pub fn among(clusters: &[u32], a: u32) -> bool
    ensures { Decides result (Among a clusters.now) }
{
    clusters.contains(&a)
}

// Whether each species of s is, as a set of one, one of the clusters.
fn singles(clusters: &[u32], breadth: usize, s: u32) -> bool
    requires breadth_bound { breadth ≤ 32 }
    requires s_bound { s < 2 ^ breadth }
    ensures { Decides result ((i : ℕ) → Has s i → Among (single i) clusters.now) }
{
    for i in 0..breadth {
        let one = clusters::single(i);
        if clusters::within(one, s) && !among(clusters, one) {
            return false;
        }
    }
    true
}

// Whether s and each single species of it are among the clusters.
pub(crate) fn complete(clusters: &[u32], breadth: usize, s: u32) -> bool
    requires breadth_bound { breadth ≤ 32 }
    requires s_bound { s < 2 ^ breadth }
    ensures { Decides result (Among s clusters.now × ((i : ℕ) → Has s i → Among (single i) clusters.now)) }
{
    among(clusters, s) && singles(clusters, breadth, s)
}
