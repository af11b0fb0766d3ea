// Which numbers are a valid record of a breadth, clause by clause: the one judgement for 01's records and for wide ones.
ghost use Rattle.std.specs.Prelude.{◌≡◌, ◌*◌, ◌^◌, ◌<◌, ◌≤◌, length};
ghost use Rattle.trees.specs.Decides.{Decides};
ghost use Rattle.trees.specs.Records.{ValidFor, GeneValidFor};

use crate::{layout, nesting, presence};

// Whether r is a valid record of a tree whose whole set is s.
pub(crate) fn valid(r: &[u32], breadth: usize, s: u32) -> bool
    requires r_len { length r.now ≡ 2 * breadth }
    requires le_breadth { 1 ≤ breadth }
    requires breadth_bound { breadth ≤ 32 }
    requires s_bound { s < 2 ^ breadth }
    ensures { Decides result (ValidFor breadth s r.now) }
{
    if !layout::formed(r, breadth) {
        return false;
    }
    let clusters = &r[1..=r[0] as usize];
    presence::inside(clusters, s)
        && presence::complete(clusters, breadth, s)
        && nesting::nested(clusters)
}

// Whether r is a valid record of a gene tree for n species: on its largest cluster, the last that it lists.
pub(crate) fn valid_gene(r: &[u32], breadth: usize, n: usize) -> bool
    requires r_len { length r.now ≡ 2 * breadth }
    requires le_breadth { 1 ≤ breadth }
    requires breadth_bound { breadth ≤ 32 }
    requires n_le_breadth { n ≤ breadth }
    ensures { Decides result (GeneValidFor breadth n r.now) }
{
    let all = clusters::whole(n);
    let m = r[0] as usize;
    if m >= 2 * breadth {
        return false;
    }
    let s = r[m];
    if s < 1 || all < s {
        return false;
    }
    valid(r, breadth, s)
}
