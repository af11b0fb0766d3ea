// Any two clusters of a record are disjoint, or one holds the other.
ghost use Rattle.std.specs.Prelude.{ℕ};
ghost use Rattle.trees.specs.Decides.{Decides};
ghost use Rattle.trees.specs.Lists.{Among};
ghost use Rattle.trees.specs.Records.{Nested};

// Whether a and b are disjoint, or one holds the other.
fn agree(a: u32, b: u32) -> bool
    ensures { Decides result (Nested a b) }
{
    clusters::apart(a, b) || clusters::within(a, b) || clusters::within(b, a)
}

// Whether any two of the clusters agree: each is held against those behind it, up to the first pair that clashes.
pub(crate) fn nested(clusters: &[u32]) -> bool
    ensures { Decides result
        ((a b : ℕ) → Among a clusters.now → Among b clusters.now → Nested a b) }
{
    'pairs: {
        for i in 0..clusters.len() {
            for j in i + 1..clusters.len() {
                if !agree(clusters[i], clusters[j]) {
                    break 'pairs false;
                }
            }
        }
        true
    }
}
