// The form of a record of any breadth: its count, the clusters each below the next, zeros behind them.
ghost use Rattle.std.specs.Prelude.{◌≡◌, ◌*◌, ◌≤◌, length, replicate};
ghost use Rattle.trees.specs.Decides.{Decides};
ghost use Rattle.trees.specs.Lists.{Rising};
ghost use Rattle.trees.specs.Records.{FormFor};

// Whether each of the clusters is below the next.
fn rising(clusters: &[u32]) -> bool
    ensures { Decides result (Rising clusters.now) }
{
    clusters.is_sorted_by(|a, b| a < b)
}

// Whether all of these numbers are zero.
fn zeros(numbers: &[u32]) -> bool
    ensures { Decides result (numbers.now ≡ replicate (length numbers.now) 0) }
{
    numbers.iter().all(|x| *x == 0)
}

// Whether r has the form of a record of that breadth.
pub(crate) fn formed(r: &[u32], breadth: usize) -> bool
    requires r_len { length r.now ≡ 2 * breadth }
    requires le_breadth { 1 ≤ breadth }
    requires breadth_bound { breadth ≤ 32 }
    ensures { Decides result (FormFor breadth r.now) }
{
    let m = r[0] as usize;
    m < 2 * breadth && rising(&r[1..=m]) && zeros(&r[m + 1..])
}
