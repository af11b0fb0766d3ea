// Which 32 numbers are a valid record, whether it is a binary tree's, and whether its tree may be counted without a root; which 64 are a valid wide one.
#![tactic(auto)]

mod judging;
mod layout;
mod nesting;
mod presence;
pub mod wide;

ghost use Rattle.std.specs.Prelude.{◌≡◌, ◌<◌, ◌≤◌, length, take, drop};
ghost use Rattle.trees.specs.Decides.{Decides};
ghost use Rattle.trees.specs.Lists.{Among};
ghost use Rattle.trees.specs.Records.{ValidOn, GeneValid, BinaryOn};
ghost use Rattle.trees.specs.Unrooted.{may_unroot};

pub use presence::among;

// The same numbers, each with 32 bits. `sums` asks for them too: there is one judgement, and one way to count, for both widths.
pub fn widened(r: &[u16]) -> [u32; 32]
    requires { length r.now ≡ 32 }
    ensures { result ≡ r.now }
{
    let mut wide = [0u32; 32];
    for (i, x) in r.iter().enumerate() {
        wide[i] = u32::from(*x);
    }
    wide
}

// Whether r is a valid record of a tree whose whole set is s. `lineages` asks it of 32 numbers and a set of at most 16 species.
pub fn valid(r: &[u16], s: u32) -> bool
    requires r_len { length r.now ≡ 32 }
    requires s_bound { s < 65536 }
    ensures { Decides result (ValidOn s r.now) }
{
    judging::valid(&widened(r), 16, s)
}

// Whether r is a valid record of a gene tree for n species. `writer` and `lineages` ask it of 32 numbers and at most 16 species.
pub fn valid_gene(r: &[u16], n: usize) -> bool
    requires r_len { length r.now ≡ 32 }
    requires n_bound { n ≤ 16 }
    ensures { Decides result (GeneValid n r.now) }
{
    judging::valid_gene(&widened(r), 16, n)
}

// Whether r has as many clusters as a binary tree on s. `lineages` and `counts` ask it of 32 numbers.
pub fn binary(r: &[u16], s: u32) -> bool
    requires { length r.now ≡ 32 }
    ensures { Decides result (BinaryOn s r.now) }
{
    u32::from(r[0]) + 1 == 2 * clusters::size(s)
}

// Whether the tree of a valid gene record is complete, and binary save that the root may have three children. `lineages` asks it of records that it has judged.
pub fn unrootable(g: &[u16], n: usize) -> bool
    requires n_bound { n ≤ 16 }
    requires gene_valid { GeneValid n g.now }
    ensures { result ≡ may_unroot n g.now }
{
    let g = widened(g);
    let m = g[0] as usize;
    // a tree that lacks a species has too few clusters for either
    if m + 1 == 2 * n {
        return true;
    }
    if m + 2 == 2 * n {
        // it is the root that has three children, unless two clusters part the species; then the largest but the whole set is one of them
        let rest = clusters::whole(n) - g[m - 1];
        return !among(&g[1..=m], rest);
    }
    false
}
