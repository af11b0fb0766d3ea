// The weight of a cluster and the score of a species tree on a stand.
ghost use Rattle.std.specs.Prelude.{◌≡◌, length};
ghost use Rattle.roster.specs.Judged.{reply_to};
ghost use Rattle.stand.specs.Promise.{StandWeighs, StandScores};

use crate::checks::{Given, judge_records, opened};
use faults::{Fault, Refusal};
use lineages::checks::{is_cluster, is_species_tree};
use roster::Reply;
use weights::wide::{weigh_stand, weigh_stand_tree};

// The weight of a cluster, or why there is none.
fn weighed(given: &Given, cluster: usize) -> Result<usize, Refusal>
    ensures { StandWeighs given.now.line.now given.now.individuals.now given.now.mapping.now given.now.genes.now given.now.count cluster (reply_to result) }
{
    let Given { genes, count, .. } = *given;
    let stand = opened(given)?;
    judge_records(stand.individuals, genes, count)?;
    if !is_cluster(stand.species, cluster) {
        return Err(Fault::NoCluster.at(cluster));
    }
    let weight = weigh_stand(&stand.groups, stand.species, genes, count, cluster as u32);
    Ok(weight)
}

// The weight of a cluster of species: the sum over all gene trees of the extra lineages of its individuals.
pub fn weight(
    line: &[u8],
    individuals: &[u8],
    mapping: &[u8],
    genes: &[u32],
    count: usize,
    cluster: usize,
) -> Reply
    ensures { StandWeighs line.now individuals.now mapping.now genes.now count cluster result }
{
    let given = Given {
        line,
        individuals,
        mapping,
        genes,
        count,
    };
    roster::reply_to(weighed(&given, cluster))
}

// The score of a species record, or why there is none.
fn scored(given: &Given, species: &[u16]) -> Result<usize, Refusal>
    requires { length species.now ≡ 32 }
    ensures { StandScores given.now.line.now given.now.individuals.now given.now.mapping.now given.now.genes.now given.now.count species.now (reply_to result) }
{
    let Given { genes, count, .. } = *given;
    let stand = opened(given)?;
    if !is_species_tree(stand.species, species) {
        return Err(Fault::BadSpeciesRecord.at(0));
    }
    judge_records(stand.individuals, genes, count)?;
    Ok(weigh_stand_tree(&stand.groups, stand.species, genes, count, species))
}

// The score of a species tree: the sum of the weights of all its clusters, single species among them.
pub fn score(
    line: &[u8],
    individuals: &[u8],
    mapping: &[u8],
    genes: &[u32],
    count: usize,
    species: trees::Record,
) -> Reply
    ensures { StandScores line.now individuals.now mapping.now genes.now count species.numbers result }
{
    let given = Given {
        line,
        individuals,
        mapping,
        genes,
        count,
    };
    roster::reply_to(scored(&given, &species.numbers))
}
