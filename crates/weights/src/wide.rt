// Extra lineages counted on a stand (#110): the individuals of a set of species, and gene trees on individuals, in wide records, that were checked.
ghost use Rattle.std.specs.Prelude.{◌≡◌, ◌*◌, ◌≤◌, length, take};
ghost use Rattle.trees.specs.Records.{Form, wide_records_in};
ghost use Rattle.weights.specs.Count.{weight};
ghost use Rattle.weights.specs.Stand.{individuals_of, stand_weight, stand_score};
ghost use Rattle.weights.specs.Work.{AllCountableFor, StandCountable};
ghost use Rattle.weights.specs.declared.Rooting.TheVariants.{Rooted};

use crate::{Rooting, count};

// The individuals of the species of a, of a stand whose first n groups are those of its n species. `stand` may call it behind a mapping that was judged.
pub fn individuals_of(groups: &[u32], n: usize, a: u32) -> u32
    requires n_bound { n ≤ 32 }
    requires n_in_bounds { n ≤ length groups.now }
    ensures { result ≡ individuals_of (take n groups.now) a }
{
    let mut all: u32 = 0;
    for (i, group) in groups[..n].iter().enumerate() {
        if clusters::within(clusters::single(i), a) {
            all = clusters::union(all, *group);
        }
    }
    all
}

// The extra lineages of a over count gene trees. `adding::weigh` is the same chain with each record widened: one for both would take the width, the step and the rooting.
fn weigh(genes: &[u32], count: usize, a: u32) -> usize
    requires count_bound { count ≤ 4096 }
    requires count_in_bounds { 64 * count ≤ length genes.now }
    requires all_countable_for { AllCountableFor 32 (wide_records_in count genes.now) }
    ensures { result ≡ weight Rooted (wide_records_in count genes.now) a }
{
    genes[..64 * count]
        .chunks_exact(64)
        .map(|g| count::extra(Rooting::Rooted, g, a))
        .sum()
}

// The weight of a set of species over count gene trees on the individuals of a stand. `stand` calls it, with a mapping and records that were judged.
pub fn weigh_stand(groups: &[u32], n: usize, genes: &[u32], count: usize, a: u32) -> usize
    requires { StandCountable groups.now n genes.now count }
    ensures { result ≡ stand_weight (take n groups.now) (wide_records_in count genes.now) a }
{
    weigh(genes, count, individuals_of(groups, n, a))
}

// As `adding::weigh_tree`, one chain over the clusters; with what a cluster weighs as a parameter it would be no plainer.
// The score of a species record over count gene trees on the individuals of a stand. `stand` calls it, with a mapping and records that were judged.
pub fn weigh_stand_tree(
    groups: &[u32],
    n: usize,
    genes: &[u32],
    count: usize,
    species: &[u16],
) -> usize
    requires stand_countable { StandCountable groups.now n genes.now count }
    requires form { Form species.now }
    ensures { result ≡ stand_score (take n groups.now) (wide_records_in count genes.now) species.now }
{
    let m = species[0] as usize;
    species[1..=m]
        .iter()
        .map(|x| weigh_stand(groups, n, genes, count, u32::from(*x)))
        .sum()
}
