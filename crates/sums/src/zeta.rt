// The zeta transform of both tables: after a step for each species an entry is the sum over all parts of its set.
ghost use Rattle.std.specs.Prelude.{◌≡◌, ℕ, ◌+◌, ◌^◌, ◌<◌, ◌≤◌, length, slice_index};
ghost use Rattle.weights.specs.Subsets.{stepped, zeta};
ghost use Rattle.sums.specs.Work.{HalfAdded, AtMost};

// In both tables, adds each of the half entries from start on to the entry half places behind it; every other entry stays.
fn add_half(start: usize, half: usize, sums: &mut [u32], lost: &mut [u16])
    requires half_in_bounds { start + half + half ≤ length sums.old }
    requires sums_len { length sums.old ≡ length lost.old }
    requires sums_len_bound { length sums.old ≤ 65536 }
    requires by_index { (a : ℕ) → start ≤ a → a < start + half → slice_index lost.old (a + half) + slice_index lost.old a ≤ 65535 }
    ensures half_added { HalfAdded start half sums.old sums.new }
    ensures half_added_2 { HalfAdded start half lost.old lost.new }
{
    for a in start..start + half {
        let b = a + half;
        sums[b] = sums[b].wrapping_add(sums[a]);
        lost[b] += lost[a];
    }
}

// The step for species i: to each set that has it the entry of the set without it is added, one block of sets after the other.
fn step(i: usize, n: usize, sums: &mut [u32], lost: &mut [u16])
    requires i_lt_n { i < n }
    requires n_bound { n ≤ 16 }
    requires sums_len { length sums.old ≡ 2 ^ n }
    requires lost_len { length lost.old ≡ 2 ^ n }
    requires at_most { AtMost 4096 (stepped i lost.old) }
    ensures sums_after { sums.new ≡ stepped i sums.old }
    ensures lost_after { lost.new ≡ stepped i lost.old }
{
    let half = clusters::single(i) as usize;
    for start in (0..sums.len()).step_by(2 * half) {
        add_half(start, half, sums, lost);
    }
}

// The steps for all n species.
pub(crate) fn transform(n: usize, sums: &mut [u32], lost: &mut [u16])
    requires n_bound { n ≤ 16 }
    requires sums_len { length sums.old ≡ 2 ^ n }
    requires lost_len { length lost.old ≡ 2 ^ n }
    requires by_index { (k : ℕ) → k ≤ n → AtMost 4096 (zeta k lost.old) }
    ensures sums_after { sums.new ≡ zeta n sums.old }
    ensures lost_after { lost.new ≡ zeta n lost.old }
{
    for i in 0..n {
        step(i, n, sums, lost);
    }
}
