// The weights of all sets of species on a stand at once (#110): each set that a gene tree on individuals adds or takes off is seen at its species.
ghost use Rattle.std.specs.Prelude.{◌≡◌, ◌*◌, ◌^◌, ◌≤◌, map, length, take, replicate};
ghost use Rattle.trees.specs.Lists.{up_to};
ghost use Rattle.trees.specs.Records.{wide_records_in};
ghost use Rattle.weights.specs.Stand.{stand_weight};
ghost use Rattle.weights.specs.Subsets.{plus_all, minus_all, whole_sets, taken};
ghost use Rattle.weights.specs.Work.{AllCountableFor};
ghost use Rattle.weights.specs.declared.Rooting.TheVariants.{Rooted};
ghost use Rattle.sums.specs.Work.{Changed, Tallied, StandWeighable};

use crate::entries::clear;
use crate::rooted::add_rooted;
use crate::seen::{Seen, Species};
use crate::{tell, zeta};

// What all of them add and take off.
// These two loops and `fill_stand` have twins in lib.rt, over records of 16-bit numbers: a trait of both kinds of lent records would be longer than the lines that it saves.
fn add_trees(species: &Species, genes: &[u32], count: usize, sums: &mut [u32])
    requires grouped { length sums.old ≡ 2 ^ length species.now.groups.now }
    requires count_in_bounds { 64 * count ≤ length genes.now }
    requires all_countable_for { AllCountableFor 32 (wide_records_in count genes.now) }
    ensures { Changed (taken species.now.groups.now (plus_all Rooted (wide_records_in count genes.now))) (taken species.now.groups.now (minus_all Rooted (wide_records_in count genes.now))) sums.old sums.new }
{
    for g in genes[..64 * count].chunks_exact(64) {
        add_rooted::<Species, 32>(species, g, sums);
    }
}

// The number of gene trees by the species of their whole set: one more at the entry of each tree's, in a table that was cleared before.
fn count_sets(species: &Species, genes: &[u32], count: usize, lost: &mut [u16])
    requires grouped { length lost.old ≡ 2 ^ length species.now.groups.now }
    requires count_bound { count ≤ 4096 }
    requires count_in_bounds { 64 * count ≤ length genes.now }
    requires all_countable_for { AllCountableFor 32 (wide_records_in count genes.now) }
    requires lost_value { lost.old ≡ replicate (length lost.old) 0 }
    ensures { Tallied (taken species.now.groups.now (whole_sets (wide_records_in count genes.now))) lost.old lost.new }
{
    for g in genes[..64 * count].chunks_exact(64) {
        let last = g[0] as usize;
        let all = species.entry(g[last]) as usize;
        lost[all] += 1;
    }
}

// Fills a table of 2^n entries: entry A is the weight of A over count gene trees on the individuals of a stand that were checked. The other table is work space. `stand` calls it, for its
// search, whose checks have passed then.
pub fn fill_stand(
    n: usize,
    groups: &[u32],
    genes: &[u32],
    count: usize,
    sums: &mut [u32],
    lost: &mut [u16],
)
    requires stand_weighable { StandWeighable n groups.now genes.now count }
    requires sums_len { length sums.old ≡ 2 ^ n }
    requires lost_len { length lost.old ≡ 2 ^ n }
    ensures { sums.new ≡ map (λ a. stand_weight (take n groups.now) (wide_records_in count genes.now) a) (up_to (2 ^ n)) }
{
    let species = Species {
        groups: &groups[..n],
    };
    clear(sums, lost);
    add_trees(&species, genes, count, sums);
    count_sets(&species, genes, count, lost);
    zeta::transform(n, sums, lost);
    tell(count, sums, lost);
}
