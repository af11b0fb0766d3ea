// Sets of at most 32 species as numbers: the operations that the layers above need, each by one machine operation.
#![tactic(auto)]

ghost use Rattle.std.specs.Prelude.{◌≡◌, ◌<◌, ◌≤◌};
ghost use Rattle.clusters.specs.Sets.{whole, single, union, within, apart, size, lowest};

// The set of the one species i. Other crates call it, with a species that they have counted.
pub fn single(i: usize) -> u32
    requires { i < 32 }
    ensures { result ≡ single i }
{
    1u32 << i
}

// The set of all n species. Other crates call it, with an n that they have judged.
pub fn whole(n: usize) -> u32
    requires { n ≤ 32 }
    ensures { result ≡ whole n }
{
    // 32 digits cannot be shifted by 32
    ((1u64 << n) - 1) as u32
}

// The species of a and those of b together.
pub fn union(a: u32, b: u32) -> u32
    ensures { result ≡ union a b }
{
    a | b
}

// Whether a lies within b.
pub fn within(a: u32, b: u32) -> bool
    ensures { result ≡ within a b }
{
    a & b == a
}

// Whether a and b are disjoint.
pub fn apart(a: u32, b: u32) -> bool
    ensures { result ≡ apart a b }
{
    a & b == 0
}

// How many species a has.
pub fn size(a: u32) -> u32
    ensures { result ≡ size a }
{
    a.count_ones()
}

// The lowest species of a, and 32 where a has none.
pub fn lowest(a: u32) -> u32
    ensures { result ≡ lowest a }
{
    a.trailing_zeros()
}
