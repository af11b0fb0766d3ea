// A sheet of candidate trees (#107): a lent list of entries, each with the position of a species record, filled with what the single scoring call would give.
#![tactic(auto)]

ghost use Rattle.std.specs.Prelude.{◌≡◌, length, map};
ghost use Rattle.roster.specs.Judged.{reply_to};
ghost use Rattle.roster.specs.Verdict.{verdict, said_by};
ghost use Rattle.lineages.specs.Promise.{Scores};
ghost use Rattle.sheet.specs.Promise.{Sheets, sheet_tests, entry_for};
ghost use Rattle.sheet.specs.Work.{Passed};

use faults::{Fault, Refusal};
use lineages::checks::{is_species_tree, judge_genes, shape};
use roster::Reply;
use weights::Rooting;

// An entry, a type of the C interface: the position of a species record, and what it gets.
#[repr(C)]
#[derive(Clone, Copy, Debug, PartialEq, Eq)]
pub struct Entry {
    pub position: usize,
    pub number: u32,
    pub score: usize,
}

// What a sheet is scored by: gene trees that nothing refuses, and the species records that are lent.
#[derive(Clone, Copy)]
struct Lent<'a> {
    rooting: Rooting,
    n: usize,
    genes: &'a [u16],
    count: usize,
    records: &'a [u16],
    ghost passed: { Passed rooting n genes.now count },
}

impl Lent<'_> {
    // The score of one species record, or 16.
    fn score_one(&self, species: &[u16]) -> Result<usize, Refusal>
        requires { length species.now ≡ 32 }
        ensures { Scores self.now.rooting self.now.n self.now.genes.now self.now.count species.now (reply_to result) }
    {
        if !is_species_tree(self.n, species) {
            return Err(Fault::BadSpeciesRecord.at(0));
        }
        Ok(weights::adding::weigh_tree(self.rooting, self.genes, self.count, species))
    }

    // An entry with what it gets: 12 where the record at its position does not lie wholly within those lent.
    fn filled(&self, entry: Entry) -> Entry
        ensures { result ≡ entry_for self.now.rooting self.now.n self.now.genes.now self.now.count self.now.records.now entry }
    {
        let position = entry.position;
        if position < self.records.len() / 32 {
            let start = 32 * position;
            let single = roster::reply_to(self.score_one(&self.records[start..start + 32]));
            Entry {
                number: single.number,
                score: single.value,
                ..entry
            }
        } else {
            Entry {
                number: Fault::ShortSlice.number(),
                score: 0,
                ..entry
            }
        }
    }

    // Fills every entry.
    fn fill(&self, entries: &mut [Entry])
        ensures { entries.new ≡ map (entry_for self.now.rooting self.now.n self.now.genes.now self.now.count self.now.records.now) entries.old }
    {
        // By index, counted from 1, so that which entries are filled stands in the range.
        for nth in 1..entries.len() + 1 {
            let i = nth - 1;
            entries[i] = self.filled(entries[i]);
        }
    }
}

// Judges what refuses the whole call: 1, 11, 12, 15 and 19.
fn judge_call(rooting: Rooting, n: usize, genes: &[u16], count: usize) -> Result<(), Refusal>
    ensures { said_by result ≡ verdict (sheet_tests rooting n genes.now count) }
{
    shape(n, genes, count)?;
    judge_genes(rooting, n, genes, count)
}

// Fills every entry with what the single scoring call would give for the record at its position, or with 12 and 0 where that record does not lie wholly within those lent.
pub fn sheet(
    rooting: Rooting,
    n: usize,
    genes: &[u16],
    count: usize,
    records: &[u16],
    entries: &mut [Entry],
) -> Reply
    ensures { Sheets rooting n genes.now count records.now entries.old result entries.new }
{
    match judge_call(rooting, n, genes, count) {
        Ok(()) => {
            let lent = Lent {
                rooting,
                n,
                genes,
                count,
                records,
            };
            lent.fill(entries);
            roster::done(0)
        }
        Err(refusal) => Reply::from(refusal),
    }
}
