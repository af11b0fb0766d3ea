// The checks of a stand and of gene trees on its individuals: how many there are, whether they are there, and the first that is at fault.
ghost use Rattle.std.specs.Prelude.{◌≡◌, [], ◌∷◌, ◌*◌, ◌≤◌, length, not, position};
ghost use Rattle.trees.specs.Valid.{valid_gene_for};
ghost use Rattle.trees.specs.Records.{wide_records_in};
ghost use Rattle.roster.specs.Verdict.{verdict, length_test, said_by};
ghost use Rattle.lineages.specs.Checks.{count_test};
ghost use Rattle.stand.specs.Checks.{wide_records_test};
ghost use Rattle.stand.specs.Work.{StandOpened};

use faults::{Fault, Refusal};
use mapping::Stand;

// 11 or 12 where count or the entries that are lent are at fault. Both are at place 0. `lineages: shape` asks for the species, too, which are a roster's here.
fn lent(genes: &[u32], count: usize) -> Result<(), Refusal>
    ensures { said_by result ≡ verdict (count_test count ∷ length_test (length genes.now) (64 * count) ∷ []) }
{
    if count < 1 || 4096 < count {
        return Err(Fault::GeneCount.at(0));
    }
    if genes.len() < 64 * count {
        return Err(Fault::ShortSlice.at(0));
    }
    Ok(())
}

// What each call is given: the texts of a stand, and gene trees on its individuals.
#[derive(Clone, Copy)]
pub(crate) struct Given<'a> {
    pub line: &'a [u8],
    pub individuals: &'a [u8],
    pub mapping: &'a [u8],
    pub genes: &'a [u32],
    pub count: usize,
}

// The stand judged, and how many gene trees are lent.
pub(crate) fn opened(given: &Given) -> Result<Stand, Refusal>
    ensures { StandOpened given.now.line.now given.now.individuals.now given.now.mapping.now given.now.genes.now given.now.count result }
{
    let stand = mapping::judge(given.line, given.individuals, given.mapping)?;
    lent(given.genes, given.count)?;
    Ok(stand)
}

// The index of the first record that is not that of a gene tree on the m individuals, where there is one: as `lineages: first_bad`, over records of the other width.
fn first_bad(m: usize, genes: &[u32], count: usize) -> Option<usize>
    requires m_bound { m ≤ 32 }
    requires count_in_bounds { 64 * count ≤ length genes.now }
    ensures { result ≡ position (λ g. not (valid_gene_for 32 m g)) (wide_records_in count genes.now) }
{
    genes[..64 * count]
        .chunks_exact(64)
        .position(|g| !records::wide::valid_gene(g, m))
}

// 15 at the index of that record. The calls ask it behind `opened`, which says that the entries are there.
pub(crate) fn judge_records(m: usize, genes: &[u32], count: usize) -> Result<(), Refusal>
    requires m_bound { m ≤ 32 }
    requires count_in_bounds { 64 * count ≤ length genes.now }
    ensures { said_by result ≡ verdict (wide_records_test m (wide_records_in count genes.now) ∷ []) }
{
    match first_bad(m, genes, count) {
        Some(i) => Err(Fault::BadRecord.at(i)),
        None => Ok(()),
    }
}
