// The children of a cluster, one after the other.
ghost use Rattle.std.specs.Prelude.{◌≡◌, ◌&&◌, ◌≤◌, reverse};
ghost use Rattle.std.specs.List.{find};
ghost use Rattle.clusters.specs.Sets.{Within, within, size, lowest};
ghost use Rattle.trees.specs.Drawn.{properly};
ghost use Rattle.texts.specs.Work.{Listed, ChildWith};

// Whether c lies properly within the cluster and holds the species.
#[tactic(auto, unfolding(trees::specs::Drawn::properly))]
fn inner_with(c: u32, cluster: u32, species: u32) -> bool
    ensures { result ≡ (properly c cluster && within species c) }
{
    clusters::within(c, cluster) && c != cluster && clusters::within(species, c)
}

// The last of the clusters that lies properly within the cluster and holds the species.
fn last_inner(clusters: &[u16], cluster: u32, species: u32) -> Option<u32>
    ensures { result ≡ find (λ c. properly c cluster && within species c) (reverse clusters.now) }
{
    clusters
        .iter()
        .rev()
        .map(|c| u32::from(*c))
        .find(|c| inner_with(*c, cluster, species))
}

// The child that holds the lowest species of what is left: of the clusters properly within the cluster that hold it the largest,
// and that is the last in the record.
pub(crate) fn child(numbers: &[u16], cluster: u32, left: u32) -> u32
    requires listed { Listed numbers.now cluster }
    requires bound { 2 ≤ size cluster }
    requires le_left { (1 ≤ left) × Within left cluster }
    ensures { ChildWith numbers.now cluster (lowest left) result }
{
    let species = clusters::single(clusters::lowest(left) as usize);
    let m = usize::from(numbers[0]);
    last_inner(&numbers[1..=m], cluster, species).unwrap_or(species)
}
