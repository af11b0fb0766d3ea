// What both calls judge behind the roster: the gene trees, the tables and the tree.
ghost use Rattle.std.specs.Prelude.{◌≡◌, ◌≤◌};
ghost use Rattle.trees.specs.Records.{Form, records_in};
ghost use Rattle.roster.specs.Verdict.{verdict};
ghost use Rattle.weights.specs.Count.{weight, score};
ghost use Rattle.weights.specs.declared.Rooting.TheVariants.{Rooted};
ghost use Rattle.lineages.specs.InOrder.{Shaped};
ghost use Rattle.lineages.specs.Work.{genes_tests, said};
ghost use Rattle.counts.specs.Work.{CallJudged};

use faults::{Fault, Refusal};
use lineages::checks::{judge_genes, shape};
use weights::{Rooting, adding};

// The gene trees on n species that `judge` has passed; they are in order (`Passing.genes_in_order`) and are rooted.
#[derive(Clone, Copy)]
pub(crate) struct GeneTrees<'a> {
    pub n: usize,
    pub genes: &'a [u16],
    pub count: usize,
    pub ghost shaped: { Shaped n genes.now count },
    pub ghost passed: { said 0 0 ≡ verdict (genes_tests Rooted n (records_in count genes.now)) },
}

impl GeneTrees<'_> {
    // The weight of a cluster, of gene trees with a root or without one.
    pub fn weigh(&self, rooting: Rooting, a: u32) -> usize
        ensures { result ≡ weight rooting (records_in self.now.count self.now.genes.now) a }
    {
        adding::weigh(rooting, self.genes, self.count, a)
    }

    // The score of a species record.
    pub fn score(&self, species: &[u16]) -> usize
        requires { Form species.now }
        ensures { result ≡ score Rooted (records_in self.now.count self.now.genes.now) species.now }
    {
        adding::weigh_tree(Rooting::Rooted, self.genes, self.count, species)
    }
}

// 11, 12, 16 or 15 where the gene trees, the tables or the tree are at fault, and else no refusal. `entries` are asked of each table, and `binary` says whether the
// species tree is a binary one on all species. `judge_drawn` and `written` call it, behind a good roster, which has 1 to 16 names; `written` has no tables.
// n, genes and count are three arguments as 01's calls lend them: nothing is known of them before this call.
pub(crate) fn judge(
    n: usize,
    genes: &[u16],
    count: usize,
    entries: usize,
    scores: &[u32],
    splits: &[u16],
    binary: bool,
) -> Result<(), Refusal>
    requires le_n { 1 ≤ n }
    requires n_bound { n ≤ 16 }
    ensures { CallJudged n genes.now count entries scores.now splits.now binary result }
{
    shape(n, genes, count)?;
    if scores.len() < entries || splits.len() < entries {
        return Err(Fault::ShortSlice.at(0));
    }
    if !binary {
        return Err(Fault::BadSpeciesRecord.at(0));
    }
    judge_genes(Rooting::Rooted, n, genes, count)
}
