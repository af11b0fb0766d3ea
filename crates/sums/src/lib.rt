// The weights of all clusters at once, by sums over subsets: what each gene tree adds and takes off at some sets, summed up over all parts of every set.
#![tactic(auto)]

mod entries;
mod rooted;
mod seen;
pub mod stand;
mod unrooted;
mod zeta;

ghost use Rattle.std.specs.Prelude.{◌≡◌, ◌*◌, ◌^◌, ◌<◌, ◌≤◌, map, length, replicate};
ghost use Rattle.trees.specs.Lists.{up_to};
ghost use Rattle.trees.specs.Records.{records_in};
ghost use Rattle.weights.specs.Count.{weight};
ghost use Rattle.weights.specs.Subsets.{plus_by, minus_by, plus_all, minus_all, whole_sets};
ghost use Rattle.sums.specs.Work.{Changed, Tallied, Summable, AllSummable, Told, Weighable};

use records::widened;
use seen::Itself;
use weights::Rooting;

// What one gene tree adds and takes off, by its rooting.
fn add_tree(rooting: Rooting, g: &[u16], sums: &mut [u32])
    requires { Summable (length sums.old) g.now }
    ensures { Changed (plus_by rooting g.now) (minus_by rooting g.now) sums.old sums.new }
{
    let wide = widened(g);
    match rooting {
        Rooting::Rooted => rooted::add_rooted::<Itself, 16>(&Itself, &wide, sums),
        Rooting::Unrooted => unrooted::add_unrooted(&wide, sums),
    }
}

// What all of them add and take off.
fn add_trees(rooting: Rooting, genes: &[u16], count: usize, sums: &mut [u32])
    requires count_in_bounds { 32 * count ≤ length genes.now }
    requires all_summable { AllSummable (length sums.old) (records_in count genes.now) }
    ensures { Changed (plus_all rooting (records_in count genes.now)) (minus_all rooting (records_in count genes.now)) sums.old sums.new }
{
    for tree in genes[..32 * count].chunks_exact(32) {
        add_tree(rooting, tree, sums);
    }
}

// The number of gene trees by their whole set: one more at the entry of each tree's, in a table that was cleared before.
fn count_sets(genes: &[u16], count: usize, lost: &mut [u16])
    requires count_bound { count ≤ 4096 }
    requires count_in_bounds { 32 * count ≤ length genes.now }
    requires all_summable { AllSummable (length lost.old) (records_in count genes.now) }
    requires lost_value { lost.old ≡ replicate (length lost.old) 0 }
    ensures { Tallied (whole_sets (records_in count genes.now)) lost.old lost.new }
{
    for g in genes[..32 * count].chunks_exact(32) {
        let all = g[g[0] as usize] as usize;
        lost[all] += 1;
    }
}

// Entry 0 becomes 0. Every other sum gains the second table's entry of the species outside its set, which for `fill` is the number of gene trees that have none of the set's,
// and loses the number of all gene trees, modulo 2^32.
pub(crate) fn tell(count: usize, sums: &mut [u32], lost: &[u16])
    requires count_bound { count ≤ 4096 }
    requires in_bounds { 1 ≤ length sums.old }
    requires sums_len { length sums.old ≡ length lost.now }
    ensures { Told count sums.old lost.now sums.new }
{
    let all = sums.len() - 1;
    sums[0] = 0;
    for a in 1..sums.len() {
        let met = sums[a].wrapping_add(u32::from(lost[all - a]));
        sums[a] = met.wrapping_sub(count as u32);
    }
}

// Fills a table of 2^n entries: entry A is the weight of A over count gene trees that were checked. The other table is work space. `solver` calls it, for `search`, whose
// checks have passed then.
pub fn fill(
    rooting: Rooting,
    n: usize,
    genes: &[u16],
    count: usize,
    sums: &mut [u32],
    lost: &mut [u16],
)
    requires weighable { Weighable rooting n genes.now count }
    requires sums_len { length sums.old ≡ 2 ^ n }
    requires lost_len { length lost.old ≡ 2 ^ n }
    ensures { sums.new ≡ map (λ a. weight rooting (records_in count genes.now) a) (up_to (2 ^ n)) }
{
    entries::clear(sums, lost);
    add_trees(rooting, genes, count, sums);
    count_sets(genes, count, lost);
    zeta::transform(n, sums, lost);
    tell(count, sums, lost);
}
