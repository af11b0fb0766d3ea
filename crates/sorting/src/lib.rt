// Clusters in any order, sorted into the record of their tree.
#![tactic(auto)]

pub mod wide;

ghost use Rattle.std.specs.Prelude.{◌≡◌, ℕ, ◌<◌, ◌≤◌, length, take, get_or};
ghost use Rattle.trees.specs.Records.{record_of};

use trees::Record;

// The first 32 of the numbers, each with 16 bits.
fn narrowed(numbers: &[u32]) -> [u16; 32]
    requires in_bounds { 32 ≤ length numbers.now }
    requires by_index { (k : ℕ) → get_or numbers.now k 0 < 65536 }
    ensures { result ≡ take 32 numbers.now }
{
    let mut narrow = [0u16; 32];
    for i in 0..32 {
        narrow[i] = numbers[i] as u16;
    }
    narrow
}

// The record of the first count clusters, which come in any order: the front of the wide one. `reader`, `solver` and `plain` call it with the clusters that they have stored.
pub fn record_of(clusters: &[u32], count: usize) -> Record
    requires count_bound { count ≤ 31 }
    requires count_in_bounds { count ≤ length clusters.now }
    requires by_index { (k : ℕ) → k < count → get_or clusters.now k 0 < 65536 }
    ensures { result.numbers ≡ record_of (take count clusters.now) }
{
    let all = wide::record_of(clusters, count);
    Record {
        numbers: narrowed(&all.numbers),
    }
}
