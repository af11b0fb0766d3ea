// From the gene trees to the report: the allowed clusters, the search, the outcome.
ghost use Rattle.std.specs.Prelude.{◌≡◌, ◌+◌, ◌^◌, ◌≤◌, length};
ghost use Rattle.roster.specs.Roster.{names};
ghost use Rattle.reader.specs.Promise.{text_most};
ghost use Rattle.trees.specs.Records.{records_in};
ghost use Rattle.gather.specs.GeneTrees.{gather as GeneTrees·gather};
ghost use Rattle.weights.specs.declared.Rooting.TheVariants.{Rooted};
ghost use Rattle.gather.specs.GeneTrees.Gathered.{gathered};
ghost use Rattle.search.specs.TiesPromise.{tied_to};
ghost use Rattle.outcomes.specs.Outcome.{found_with_ties, searched, allowed_by, tree_place, with_genes, on_trees};
ghost use Rattle.outcomes.specs.Work.{answered, told, Roster, Genes, Countable, Marked};

use crate::print::solved;
use faults::{Fault, Refusal};
use gather::{gather, place};
use lineages::checks::judge_genes;
use printing::Report;
use search::searched_with_ties;
use terms::Solution;
use trees::Record;
use weights::Rooting;

// What the first two lines of the input ask for: a roster line, which is good and names n species, whether every cluster is allowed or those that the gene trees show, and how the gene trees are counted.
#[derive(Clone, Copy)]
pub struct Asked<'a> {
    pub line: &'a [u8],
    pub n: usize,
    pub all: bool,
    pub rooting: Rooting,
    pub ghost roster: { Roster line.now n },
}

// The gene trees that were read, 1 or more, each of which the rooting may count, with what is asked of them.
#[derive(Clone, Copy)]
struct Counted<'a> {
    asked: Asked<'a>,
    genes: &'a [u16],
    count: usize,
    ghost countable: { Countable asked.rooting asked.n count genes.now },
}

impl Counted<'_> {
    // Marks the allowed clusters: all of them, or those that the gene trees show.
    fn allow(&self, allowed: &mut [u8])
        requires { length allowed.old ≡ 2 ^ self.now.asked.n }
        ensures { allowed.new ≡ allowed_by self.now.asked.all self.now.asked.rooting self.now.asked.n (records_in self.now.count self.now.genes.now) }
    {
        let asked = self.asked;
        if asked.all {
            allowed.fill(1);
            return;
        }
        lineages::mark(asked.rooting, asked.n, self.genes, self.count, allowed);
    }

    // The search with its ties, with tables of its own.
    fn find(&self, allowed: &[u8]) -> Result<(Solution, u64), Refusal>
        requires { Marked self.now.asked.n allowed.now }
        ensures { tied_to result ≡ found_with_ties self.now.asked.rooting self.now.asked.n (records_in self.now.count self.now.genes.now) allowed.now }
    {
        let mut scores = [0u32; 4096];
        let mut splits = [0u16; 4096];
        let mut ties = [0u64; 4096];
        searched_with_ties(
            self.asked.rooting,
            self.asked.n,
            self.genes,
            self.count,
            allowed,
            &mut scores,
            &mut splits,
            &mut ties,
        )
    }

    // The least tree over the allowed clusters, or the refusal.
    fn solve(&self) -> Result<Report, Refusal>
        ensures { answered result ≡ told (names self.now.asked.line.now) (searched self.now.asked.rooting self.now.asked.n (records_in self.now.count self.now.genes.now) (allowed_by self.now.asked.all self.now.asked.rooting self.now.asked.n (records_in self.now.count self.now.genes.now))) }
    {
        let entries = clusters::single(self.asked.n) as usize;
        let mut allowed = [0u8; 4096];
        self.allow(&mut allowed[..entries]);
        let (solution, ties) = self.find(&allowed[..entries])?;
        let numbers = solution.numbers;
        Ok(solved(
            &self.asked,
            self.count,
            solution.score,
            ties,
            Record { numbers },
        ))
    }
}

impl Asked<'_> {
    // The gene trees that were read, 1 or more: 19 at the first that may not be counted by the rooting, else what is found of them.
    fn on_genes(
        &self,
        trees: &[u8],
        shift: usize,
        genes: &[u16],
        count: usize,
    ) -> Result<Report, Refusal>
        requires trees_bound { shift + length trees.now ≤ text_most }
        requires genes_value { gathered (records_in count genes.now) ≡ GeneTrees·gather self.now.line.now trees.now }
        requires genes { Genes Rooted self.now.n count genes.now }
        ensures { answered result ≡ told (names self.now.line.now) (with_genes (records_in count genes.now) (λ i. tree_place self.now.line.now trees.now shift i) self.now.all self.now.rooting self.now.n) }
    {
        if let Err(refusal) = judge_genes(self.rooting, self.n, genes, count) {
            let at = place(self.line, trees, refusal.place);
            return Err(refusal.fault.at(shift + at));
        }
        let counted = Counted {
            asked: *self,
            genes,
            count,
        };
        counted.solve()
    }

    // The trees, which begin at `shift` of the input, and what is found of them. `report` calls it, with the rest of its input behind a good roster line and a mode line.
    pub fn on_trees(&self, trees: &[u8], shift: usize) -> Result<Report, Refusal>
        requires { shift + length trees.now ≤ text_most }
        ensures { answered result ≡ told (names self.now.line.now) (on_trees (GeneTrees·gather self.now.line.now trees.now) self.now.line.now trees.now shift self.now.all self.now.rooting self.now.n) }
    {
        let mut genes = [0u16; 16384];
        let count = gather(self.line, trees, &mut genes).map_err(|e| e.fault.at(shift + e.place))?;
        if count == 0 {
            return Err(Fault::GeneCount.at(0));
        }
        self.on_genes(trees, shift, &genes, count)
    }
}
