// What a gene tree with its root adds and takes off, by inclusion and exclusion: its whole set is counted; of each node of more than one species the unions of an odd number
// of children are counted, and the node itself and the unions of an even number, which is not none, taken off. One pass for both breadths of a record, and for all ways to
// see a set.
ghost use Rattle.std.specs.Prelude.{◌≤◌, [], ◌∷◌, map, length, drop, slice_index};
ghost use Rattle.clusters.specs.Sets.{union};
ghost use Rattle.trees.specs.Records.{count, listed};
ghost use Rattle.weights.specs.Subsets.{odds, evens, plus_by, minus_by};
ghost use Rattle.weights.specs.Work.{CountableFor};
ghost use Rattle.weights.specs.declared.Rooting.TheVariants.{Rooted};
ghost use Rattle.sums.specs.Work.{either, Changed, Entered, ChildrenIn, Parts, of_nodes, node_plus, node_minus};

use crate::entries::change;
use crate::seen::Seen;

// The children of a cluster: the sets from the first on.
#[derive(Clone, Copy)]
struct Children<const N: usize> {
    first: usize,
    sets: [u32; N],
}

// The children of the i-th cluster of a gene tree of breadth N. In one pass downward, a cluster that lies within what is left of it is a child, and its species are taken out.
fn children_of<const N: usize>(g: &[u32], i: usize) -> Children<N>
    requires narrow { N ≤ 32 }
    requires countable { CountableFor N g.now }
    requires le_i { 1 ≤ i }
    requires i_bound { i ≤ count g.now }
    ensures room { result.first ≤ N }
    ensures found { ChildrenIn (listed g.now) (slice_index g.now i) (drop result.first result.sets) }
{
    let mut sets = [0u32; N];
    let mut first = N;
    let mut left = g[i];
    for j in (1..i).rev() {
        let x = g[j];
        if clusters::within(x, left) {
            first -= 1;
            sets[first] = x;
            left -= x;
        }
    }
    Children { first, sets }
}

// The unions of some of the sets with what is joined already: one more at those of an odd number, one less at those of an even number, or the other way round.
fn add_unions(sets: &[u32], joined: u32, odd: bool, sums: &mut [u32])
    requires { Parts (length sums.old) joined sets.now }
    ensures { Changed (map (λ x. union joined x) (either odd (odds sets.now) (evens sets.now))) (map (λ x. union joined x) (either odd (evens sets.now) (odds sets.now))) sums.old sums.new }
{
    let Some((next, rest)) = sets.split_first() else {
        return;
    };
    // Each union with such a set is also one of one set more or less, and cancels; but with it alone it is what is joined.
    if clusters::within(*next, joined) {
        change(odd, joined as usize, sums);
        return;
    }
    let more = clusters::union(joined, *next);
    change(odd, more as usize, sums);
    add_unions(rest, more, !odd, sums);
    add_unions(rest, joined, odd, sums);
}

// What the node of the i-th cluster adds and takes off: nothing where that is a single species or individual.
fn add_node<S: Seen, const N: usize>(seen: &S, g: &[u32], i: usize, sums: &mut [u32])
    requires narrow { N ≤ 32 }
    requires countable { CountableFor N g.now }
    requires entered { Entered (S.entry seen.now) (length sums.old) g.now }
    requires le_i { 1 ≤ i }
    requires i_bound { i ≤ count g.now }
    ensures { Changed (of_nodes (λ p. map (S.entry seen.now) (node_plus (listed g.now) p)) (slice_index g.now i ∷ [])) (of_nodes (λ p. map (S.entry seen.now) (node_minus (listed g.now) p)) (slice_index g.now i ∷ [])) sums.old sums.new }
{
    let p = g[i];
    if clusters::size(p) == 1 {
        return;
    }
    change(false, seen.entry(p) as usize, sums);
    let Children { first, mut sets } = children_of::<N>(g, i);
    let sets = &mut sets[..];
    let children = &mut sets[first..];
    for x in children.iter_mut() {
        *x = seen.entry(*x);
    }
    add_unions(children, 0, true, sums);
}

// What the gene tree of breadth N adds and takes off.
pub(crate) fn add_rooted<S: Seen, const N: usize>(seen: &S, g: &[u32], sums: &mut [u32])
    requires narrow { N ≤ 32 }
    requires countable { CountableFor N g.now }
    requires entered { Entered (S.entry seen.now) (length sums.old) g.now }
    ensures { Changed (map (S.entry seen.now) (plus_by Rooted g.now)) (map (S.entry seen.now) (minus_by Rooted g.now)) sums.old sums.new }
{
    let m = g[0] as usize;
    change(true, seen.entry(g[m]) as usize, sums);
    for i in 1..=m {
        add_node::<S, N>(seen, g, i, sums);
    }
}
