// The clusters that gene trees show, marked in lent bytes.
ghost use Rattle.std.specs.Prelude.{◌≡◌, ◌++◌, ◌*◌, ◌≤◌, length, drop, replicate};
ghost use Rattle.trees.specs.Records.{listed, records_in};
ghost use Rattle.weights.specs.Work.{Markable, AllMarkable, marked_one, complements, to_mark, marked_all, marks_below};

use crate::Rooting;

// Zeros in the first entries bytes.
fn clear(out: &mut [u8], entries: usize)
    requires { entries ≤ length out.old }
    ensures { out.new ≡ replicate entries 0 ++ drop entries out.old }
{
    out[..entries].fill(0);
}

// A one at each cluster of the gene tree g.
fn mark_own(g: &[u16], out: &mut [u8])
    requires { Markable (length out.old) g.now }
    ensures { out.new ≡ marked_one (listed g.now) out.old }
{
    let m = g[0] as usize;
    for x in &g[1..=m] {
        out[*x as usize] = 1;
    }
}

// A one at the complement of each cluster of the gene tree g but the whole, which is the last. With the entry as a parameter, one for this and `mark_own` is no plainer.
fn mark_complements(g: &[u16], out: &mut [u8])
    requires { Markable (length out.old) g.now }
    ensures { out.new ≡ marked_one (complements g.now) out.old }
{
    let m = g[0] as usize;
    let all = g[m] as usize;
    for i in 1..m {
        out[all - g[i] as usize] = 1;
    }
}

// A one at each cluster that the gene tree g shows, by its rooting.
fn mark_tree(rooting: Rooting, g: &[u16], out: &mut [u8])
    requires { Markable (length out.old) g.now }
    ensures { out.new ≡ marked_one (to_mark rooting g.now) out.old }
{
    mark_own(g, out);
    if let Rooting::Unrooted = rooting {
        mark_complements(g, out);
    }
}

// A one at each cluster that some of the count gene trees shows.
fn mark_trees(rooting: Rooting, genes: &[u16], count: usize, out: &mut [u8])
    requires count_in_bounds { 32 * count ≤ length genes.now }
    requires all_markable { AllMarkable (length out.old) (records_in count genes.now) }
    ensures { out.new ≡ marked_all rooting (records_in count genes.now) out.old }
{
    for g in genes[..32 * count].chunks_exact(32) {
        mark_tree(rooting, g, out);
    }
}

// Marks each cluster that some of the count gene trees shows, in the first entries bytes. `lineages` calls it, behind `shape`, with 2^n entries that it has found lent and with records that `judge_genes` has passed.
pub fn mark_shown(rooting: Rooting, genes: &[u16], count: usize, out: &mut [u8], entries: usize)
    requires count_in_bounds { 32 * count ≤ length genes.now }
    requires entries_in_bounds { entries ≤ length out.old }
    requires all_markable { AllMarkable entries (records_in count genes.now) }
    ensures { out.new ≡ marks_below rooting entries (records_in count genes.now) ++ drop entries out.old }
{
    clear(out, entries);
    mark_trees(rooting, genes, count, out);
}
