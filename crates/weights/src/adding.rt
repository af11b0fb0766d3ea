// Extra lineages added up: over the gene trees, and over the clusters of a species tree.
ghost use Rattle.std.specs.Prelude.{◌≡◌, ◌*◌, ◌≤◌, length};
ghost use Rattle.trees.specs.Records.{Form, records_in};
ghost use Rattle.weights.specs.Count.{weight, score};
ghost use Rattle.weights.specs.Work.{AllCountable};

use crate::{Rooting, count};

// The weight of a over count gene trees that were checked. `lineages` and `counts` call it, behind `shape`, with records that `judge_genes` has passed.
// genes and count are two arguments as 01's calls lend them: `Weighs`, `Scores` and `Marks` speak of the first count records in genes.
pub fn weigh(rooting: Rooting, genes: &[u16], count: usize, a: u32) -> usize
    requires count_bound { count ≤ 4096 }
    requires count_in_bounds { 32 * count ≤ length genes.now }
    requires all_countable { AllCountable (records_in count genes.now) }
    ensures { result ≡ weight rooting (records_in count genes.now) a }
{
    genes[..32 * count]
        .chunks_exact(32)
        .map(|g| count::extra(rooting, &records::widened(g), a))
        .sum()
}

// The score of a species record over count gene trees that were checked. `lineages`, `plain`, `sheet` and `counts` call it, behind `shape`, with records that `judge_genes` has passed;
// the species record has passed `is_species_tree`, or `plain` has drawn it, or `counts` has read it.
pub fn weigh_tree(rooting: Rooting, genes: &[u16], count: usize, species: &[u16]) -> usize
    requires count_bound { count ≤ 4096 }
    requires count_in_bounds { 32 * count ≤ length genes.now }
    requires all_countable { AllCountable (records_in count genes.now) }
    requires form { Form species.now }
    ensures { result ≡ score rooting (records_in count genes.now) species.now }
{
    let m = species[0] as usize;
    species[1..=m]
        .iter()
        .map(|x| weigh(rooting, genes, count, u32::from(*x)))
        .sum()
}
