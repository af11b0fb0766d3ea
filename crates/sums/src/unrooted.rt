// What a gene tree without a root adds and takes off: its single species less its larger clusters, and the whole set mended.
ghost use Rattle.std.specs.Prelude.{map, length};
ghost use Rattle.trees.specs.Records.{largest};
ghost use Rattle.weights.specs.Subsets.{plus_by, minus_by};
ghost use Rattle.weights.specs.declared.Rooting.TheVariants.{Unrooted};
ghost use Rattle.sums.specs.Work.{Changed, Summable, own_plus, own_minus, proper_ones, unlisted};

use crate::entries::change;
use records::among;

// For each cluster of the record but the whole: a single species is counted and the whole taken off, with a larger one it is the other way round.
fn add_own(g: &[u32], sums: &mut [u32])
    requires { Summable (length sums.old) g.now }
    ensures { Changed (map (λ x. own_plus (largest g.now) x) (proper_ones g.now)) (map (λ x. own_minus (largest g.now) x) (proper_ones g.now)) sums.old sums.new }
{
    let m = g[0] as usize;
    let all = g[m] as usize;
    for x in &g[1..m] {
        let one = clusters::size(*x) == 1;
        change(one, *x as usize, sums);
        change(!one, all, sums);
    }
}

// The complement of each of them that is no cluster of the record itself is taken off, and the whole counted.
fn add_complements(g: &[u32], sums: &mut [u32])
    requires { Summable (length sums.old) g.now }
    ensures { Changed (map (λ x. largest g.now) (unlisted g.now)) (unlisted g.now) sums.old sums.new }
{
    let m = g[0] as usize;
    let all = g[m];
    for x in &g[1..m] {
        let other = all - *x;
        if !among(&g[1..=m], other) {
            change(false, other as usize, sums);
            change(true, all as usize, sums);
        }
    }
}

// What the gene tree adds and takes off.
pub(crate) fn add_unrooted(g: &[u32], sums: &mut [u32])
    requires { Summable (length sums.old) g.now }
    ensures { Changed (plus_by Unrooted g.now) (minus_by Unrooted g.now) sums.old sums.new }
{
    let m = g[0] as usize;
    change(true, g[m] as usize, sums);
    add_own(g, sums);
    add_complements(g, sums);
}
