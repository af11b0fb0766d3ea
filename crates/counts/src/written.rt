// The text of a species tree with the weight of its cluster behind each node.
ghost use Rattle.trees.specs.Records.{Form};
ghost use Rattle.roster.specs.Judged.{reply_to};
ghost use Rattle.counts.specs.Promise.{WritesCounts};
ghost use Rattle.counts.specs.Work.{Weighed};

use crate::judged::{GeneTrees, judge};
use faults::Refusal;
use lineages::checks::is_species_tree;
use roster::{Reply, reply_to};
use trees::Record;
use weights::Rooting;

// The weight of each cluster of the record, at the cluster's own index. `written` calls it, with a species record that `judge` has passed.
fn weigh_all(trees: &GeneTrees, numbers: &[u16]) -> [u32; 32]
    requires { Form numbers.now }
    ensures { Weighed trees.now.genes.now trees.now.count numbers.now result }
{
    let mut counts = [0; 32];
    let m = numbers[0] as usize;
    for i in 1..=m {
        counts[i] = trees.weigh(Rooting::Rooted, numbers[i] as u32) as u32;
    }
    counts
}

// The checks of `write_counts` in their order, and the text behind them.
fn written(
    line: &[u8],
    genes: &[u16],
    count: usize,
    species: Record,
    out: &mut [u8],
) -> Result<usize, Refusal>
    ensures { WritesCounts line.now genes.now count species.numbers out.old (reply_to result) out.new }
{
    let roster = roster::parse(line, 16)?;
    let n = roster.count;
    let table = roster.table;
    let numbers = species.numbers;
    let binary = is_species_tree(n, &numbers);
    judge(n, genes, count, 0, &[], &[], binary)?;
    let trees = GeneTrees { n, genes, count };
    let counts = weigh_all(&trees, &numbers);
    writer::put(&table, n, &numbers, Some(&counts), out)
}

// Writes the text of the species tree, behind each node `:` and the weight of its cluster, into out, and answers its length.
pub fn write_counts(
    line: &[u8],
    genes: &[u16],
    count: usize,
    species: Record,
    out: &mut [u8],
) -> Reply
    ensures { WritesCounts line.now genes.now count species.numbers out.old result out.new }
{
    reply_to(written(line, genes, count, species, out))
}
