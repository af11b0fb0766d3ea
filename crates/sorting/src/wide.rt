// Clusters of individuals in any order, sorted into the wide record of their tree.
ghost use Rattle.std.specs.Prelude.{◌≡◌, ◌≤◌, length, take};
ghost use Rattle.trees.specs.Records.{record_for};

use trees::WideRecord;

// The wide record of the first count clusters, which come in any order. `reader` calls it with the clusters that it has stored.
pub fn record_of(clusters: &[u32], count: usize) -> WideRecord
    requires count_bound { count ≤ 63 }
    requires count_in_bounds { count ≤ length clusters.now }
    ensures { result.numbers ≡ record_for 32 (take count clusters.now) }
{
    let mut numbers = [0u32; 64];
    numbers[0] = count as u32;
    let listed = &mut numbers[1..=count];
    listed.copy_from_slice(&clusters[..count]);
    listed.sort_unstable_by(|x, y| x.cmp(y));
    WideRecord { numbers }
}
