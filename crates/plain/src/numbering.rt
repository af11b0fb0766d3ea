// The trees on a cluster by their numbers: from 0, in 01's order, as many as the table says for its size (#108).
ghost use Rattle.std.specs.Prelude.{◌≡◌, ◌+◌, ◌<◌, ◌≤◌, length};
ghost use Rattle.std.proofs.lemmas.List.Edits.{sets};
ghost use Rattle.clusters.specs.Sets.{size};
ghost use Rattle.trees.specs.Records.{record_of};
ghost use Rattle.splits.specs.BinaryTrees.{clusters_in, is_low, trees_on};
ghost use Rattle.plain.specs.Numbering.{tree_of};
ghost use Rattle.plain.specs.Work.{Numbered, PartOf};

use sorting::record_of;
use trees::Record;

// How many binary trees there are on 1 to 16 species: 1, then each the one before times the next odd number, beginning with 1. "the team keeps these as a table" (#108)
const TREES: [u64; 16] = [
    1,
    1,
    3,
    15,
    105,
    945,
    10395,
    135135,
    2027025,
    34459425,
    654729075,
    13749310575,
    316234143225,
    7905853580625,
    213458046676875,
    6190283353629375,
];

// A low part of a cluster, and the number of a tree among those that have it at their root.
#[derive(Clone, Copy)]
struct Part {
    low: u32,
    number: u64,
}

// How many binary trees there are on a.
pub(crate) fn trees_on(a: u32) -> u64
    requires le_a { 1 ≤ a }
    requires a_bound { a < 65536 }
    ensures { result ≡ length (trees_on a) }
{
    TREES[clusters::size(a) as usize - 1]
}

// Whether low is a low part of a: some of its species, its lowest among them.
fn is_low(a: u32, low: u32) -> bool
    requires { 1 ≤ a }
    ensures { result ≡ is_low a low }
{
    clusters::within(low, a)
        && clusters::within(clusters::single(clusters::lowest(a) as usize), low)
}

// The low part at the root of the tree of that number, and its number among the trees with that low part: low parts come the smaller number first.
fn part_of(a: u32, number: u64) -> Part
    requires numbered { Numbered a number }
    requires bound { 2 ≤ size a }
    ensures { PartOf a number result }
{
    let mut left = number;
    // by steps, so that which numbers are tried stands here
    let mut low = 1;
    while low < a {
        if is_low(a, low) {
            let with_low = trees_on(low) * trees_on(a - low);
            if left < with_low {
                return Part { low, number: left };
            }
            left -= with_low;
        }
        low += 1;
    }
    // the number is that of a tree, so it was met before
    Part { low, number: left }
}

// Stores the clusters of the tree of that number on a from `stored` on: a, then those of its low child, then those of the other. How many are stored then.
fn draw(a: u32, number: u64, drawn: &mut [u32], stored: usize) -> usize
    requires numbered { Numbered a number }
    requires number_in_bounds { stored + length (clusters_in (tree_of a number)) ≤ length drawn.old }
    ensures { (result ≡ stored + length (clusters_in (tree_of a number))) × (drawn.new ≡ sets drawn.old stored (clusters_in (tree_of a number))) }
{
    drawn[stored] = a;
    if clusters::size(a) == 1 {
        return stored + 1;
    }
    let Part { low, number } = part_of(a, number);
    let others = trees_on(a - low);
    // the trees with this low part come by their low child first: each of its trees with all of the other's
    let next = draw(low, number / others, drawn, stored + 1);
    draw(a - low, number % others, drawn, next)
}

// The record of the tree of that number on a.
pub(crate) fn tree_of(a: u32, number: u64) -> Record
    requires { Numbered a number }
    ensures { result.numbers ≡ record_of (clusters_in (tree_of a number)) }
{
    let mut drawn = [0u32; 32];
    let count = draw(a, number, &mut drawn, 0);
    record_of(&drawn, count)
}
