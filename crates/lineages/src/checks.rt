// What the calls refuse, each check by itself, so that every call can put them in its order.
ghost use Rattle.std.specs.Prelude.{◌≡◌, ◌&&◌, ◌*◌, ◌^◌, ◌≤◌, length, leb, ltb, not, position};
ghost use Rattle.clusters.specs.Sets.{whole};
ghost use Rattle.trees.specs.Valid.{valid, valid_gene, binary};
ghost use Rattle.trees.specs.Records.{records_in, AllValid};
ghost use Rattle.trees.specs.Unrooted.{may_unroot};
ghost use Rattle.roster.specs.Verdict.{verdict, said_by};
ghost use Rattle.lineages.specs.Work.{shape_tests, GenesJudged};

use faults::{Fault, Refusal};
use weights::Rooting;

// 1, 11 or 12 where n, count or the entries that are lent are at fault. All are at place 0.
pub fn shape(n: usize, genes: &[u16], count: usize) -> Result<(), Refusal>
    ensures { said_by result ≡ verdict (shape_tests n genes.now count) }
{
    if n < 1 || 16 < n {
        return Err(Fault::FaultyRoster.at(0));
    }
    if count < 1 || 4096 < count {
        return Err(Fault::GeneCount.at(0));
    }
    if genes.len() < 32 * count {
        return Err(Fault::ShortSlice.at(0));
    }
    Ok(())
}

// The index of the first record that is not that of a gene tree for n species, where there is one.
fn first_bad(n: usize, genes: &[u16], count: usize) -> Option<usize>
    requires n_bound { n ≤ 16 }
    requires count_in_bounds { 32 * count ≤ length genes.now }
    ensures { result ≡ position (λ g. not (valid_gene n g)) (records_in count genes.now) }
{
    genes[..32 * count]
        .chunks_exact(32)
        .position(|g| !records::valid_gene(g, n))
}

// The index of the first record whose tree may not be counted without a root, where there is one: the chain of `first_bad` with another test.
fn first_unresolved(n: usize, genes: &[u16], count: usize) -> Option<usize>
    requires n_bound { n ≤ 16 }
    requires count_in_bounds { 32 * count ≤ length genes.now }
    requires all_valid { AllValid n (records_in count genes.now) }
    ensures { result ≡ position (λ g. not (may_unroot n g)) (records_in count genes.now) }
{
    genes[..32 * count]
        .chunks_exact(32)
        .position(|g| !records::unrootable(g, n))
}

// 15 or 19 at the index of the first gene record at fault. `search`, `plain`, `sheet` and `counts` call it too, behind `shape`,
// which says that the entries are there.
pub fn judge_genes(rooting: Rooting, n: usize, genes: &[u16], count: usize) -> Result<(), Refusal>
    requires n_bound { n ≤ 16 }
    requires count_in_bounds { 32 * count ≤ length genes.now }
    ensures { GenesJudged rooting n genes.now count result }
{
    if let Some(i) = first_bad(n, genes, count) {
        return Err(Fault::BadRecord.at(i));
    }
    if let Rooting::Unrooted = rooting {
        if let Some(i) = first_unresolved(n, genes, count) {
            return Err(Fault::Unresolved.at(i));
        }
    }
    Ok(())
}

// Whether a is the number of a cluster of n species. `stand` calls it too, with the species of a roster that was judged.
pub fn is_cluster(n: usize, a: usize) -> bool
    requires { n ≤ 16 }
    ensures { result ≡ (leb 1 a && ltb a (2 ^ n)) }
{
    (1..1 << n).contains(&a)
}

// Whether the species record is valid, with every species, and that of a binary tree. `sheet` calls it too, behind `shape`, and `counts` and `stand`,
// behind a good roster; all say that n is small.
pub fn is_species_tree(n: usize, species: &[u16]) -> bool
    requires n_bound { n ≤ 16 }
    requires species_len { length species.now ≡ 32 }
    ensures { result ≡ (valid (whole n) species.now && binary (whole n) species.now) }
{
    let all = clusters::whole(n);
    records::valid(species, all) && records::binary(species, all)
}
