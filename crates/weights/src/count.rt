// Lineages counted in one gene tree for one cluster: in the record's numbers with 32 bits each, of 01's breadth or a wide one.
ghost use Rattle.std.specs.Prelude.{◌≡◌};
ghost use Rattle.clusters.specs.Sets.{Within};
ghost use Rattle.trees.specs.Records.{listed, largest};
ghost use Rattle.weights.specs.Count.{k_drawn, k_of, k_by, extra};
ghost use Rattle.weights.specs.Work.{Counted, SmallestHolder};
ghost use Rattle.weights.specs.declared.Rooting.TheVariants.{Unrooted};

use crate::Rooting;

// k: how many nodes of the gene tree g have a child whose cluster is maximal within a, or one where a holds all its species. In one pass from the
// smallest cluster up, a node that is not within a has such a child when it is the first such node to hold some species of a.
fn lineages_within(g: &[u32], a: u32) -> usize
    requires { Counted g.now }
    ensures { result ≡ k_of (listed g.now) a }
{
    let m = g[0] as usize;
    let mut k: usize = 0;
    // the species of a that no node passed so far holds beside one that is not of a
    let mut loose = a;
    let mut all = true;
    for x in &g[1..=m] {
        if !clusters::within(*x, a) {
            all = false;
            let joined = *x & loose;
            if joined != 0 {
                k += 1;
                loose -= joined;
            }
        }
    }
    if all { 1 } else { k }
}

// 01's count: how many clusters of the gene tree g are maximal within a. In one pass from the largest cluster down, one that lies within what is left of a
// is maximal there, and its species are taken out.
fn maximal_within(g: &[u32], a: u32) -> usize
    requires { Counted g.now }
    ensures { result ≡ k_drawn (listed g.now) a }
{
    let m = g[0] as usize;
    let mut k: usize = 0;
    let mut left = a;
    for i in (1..m + 1).rev() {
        let x = g[i];
        if clusters::within(x, left) {
            k += 1;
            left -= x;
        }
    }
    k
}

// The smallest cluster of the gene tree g that holds all of b.
fn holder(g: &[u32], b: u32) -> u32
    requires countable { Counted g.now }
    requires within { Within b (largest g.now) }
    ensures { SmallestHolder g.now b result }
{
    let m = g[0] as usize;
    for i in 1..m {
        if clusters::within(b, g[i]) {
            return g[i];
        }
    }
    g[m]
}

// k of the gene tree g without a root. The complements within a are those of the clusters that hold all species outside a, one within the other, so the
// largest is that of the smallest such cluster; beside it lie the clusters of g within a and within that cluster.
fn lineages_unrooted(g: &[u32], a: u32) -> usize
    requires { Counted g.now }
    ensures { result ≡ k_by Unrooted g.now a }
{
    let all = g[g[0] as usize];
    let outside = all - (a & all);
    if outside == 0 {
        return 1;
    }
    let smallest = holder(g, outside);
    let k = maximal_within(g, a & smallest);
    if smallest == all { k } else { k + 1 }
}

// k of the gene tree g, by its rooting.
fn lineages_by(rooting: Rooting, g: &[u32], a: u32) -> usize
    requires { Counted g.now }
    ensures { result ≡ k_by rooting g.now a }
{
    match rooting {
        Rooting::Rooted => lineages_within(g, a),
        Rooting::Unrooted => lineages_unrooted(g, a),
    }
}

// The extra lineages of a in the gene tree g, and 0 where no cluster of g lies within a.
pub(crate) fn extra(rooting: Rooting, g: &[u32], a: u32) -> usize
    requires { Counted g.now }
    ensures { result ≡ extra rooting g.now a }
{
    lineages_by(rooting, g, a).saturating_sub(1)
}
