// Extra lineages counted: the weight of a cluster, the score of a species tree, the clusters that gene trees show.
#![tactic(auto)]

pub mod checks;

ghost use Rattle.std.specs.Prelude.{◌≡◌, length};
ghost use Rattle.roster.specs.Judged.{reply_to};
ghost use Rattle.lineages.specs.Promise.{Weighs, Scores, Marks};

use faults::{Fault, Refusal};
use roster::Reply;
use weights::Rooting;

// The weight of a cluster, or why there is none.
fn weighed(
    rooting: Rooting,
    n: usize,
    genes: &[u16],
    count: usize,
    cluster: usize,
) -> Result<usize, Refusal>
    ensures { Weighs rooting n genes.now count cluster (reply_to result) }
{
    checks::shape(n, genes, count)?;
    checks::judge_genes(rooting, n, genes, count)?;
    if !checks::is_cluster(n, cluster) {
        return Err(Fault::NoCluster.at(cluster));
    }
    Ok(weights::adding::weigh(rooting, genes, count, cluster as u32))
}

// The weight of a cluster: the sum over all gene trees of its extra lineages.
pub fn weight(rooting: Rooting, n: usize, genes: &[u16], count: usize, cluster: usize) -> Reply
    ensures { Weighs rooting n genes.now count cluster result }
{
    roster::reply_to(weighed(rooting, n, genes, count, cluster))
}

// The score of a species record, or why there is none.
fn scored(
    rooting: Rooting,
    n: usize,
    genes: &[u16],
    count: usize,
    species: &[u16],
) -> Result<usize, Refusal>
    requires { length species.now ≡ 32 }
    ensures { Scores rooting n genes.now count species.now (reply_to result) }
{
    checks::shape(n, genes, count)?;
    if !checks::is_species_tree(n, species) {
        return Err(Fault::BadSpeciesRecord.at(0));
    }
    checks::judge_genes(rooting, n, genes, count)?;
    let score = weights::adding::weigh_tree(rooting, genes, count, species);
    Ok(score)
}

// The score of a species tree: the sum of the weights of all its clusters.
pub fn score(
    rooting: Rooting,
    n: usize,
    genes: &[u16],
    count: usize,
    species: trees::Record,
) -> Reply
    ensures { Scores rooting n genes.now count species.numbers result }
{
    roster::reply_to(scored(rooting, n, genes, count, &species.numbers))
}

// Marks each cluster that some gene tree shows, or says why it marks none.
fn marked(
    rooting: Rooting,
    n: usize,
    genes: &[u16],
    count: usize,
    out: &mut [u8],
) -> Result<usize, Refusal>
    ensures { Marks rooting n genes.now count out.old (reply_to result) out.new }
{
    checks::shape(n, genes, count)?;
    let entries = clusters::single(n) as usize;
    if out.len() < entries {
        return Err(Fault::ShortSlice.at(0));
    }
    checks::judge_genes(rooting, n, genes, count)?;
    weights::marking::mark_shown(rooting, genes, count, out, entries);
    Ok(0)
}

// Marks each cluster that some gene tree shows, in the first 2^n bytes.
pub fn mark(rooting: Rooting, n: usize, genes: &[u16], count: usize, out: &mut [u8]) -> Reply
    ensures { Marks rooting n genes.now count out.old result out.new }
{
    roster::reply_to(marked(rooting, n, genes, count, out))
}
