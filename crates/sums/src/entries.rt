// The entries of the two tables: cleared, and changed by one.
ghost use Rattle.std.specs.Prelude.{◌≡◌, ◌<◌, [], ◌∷◌, length, replicate};
ghost use Rattle.sums.specs.Work.{either, Changed};

// Zeros in all entries of both tables.
pub(crate) fn clear(sums: &mut [u32], lost: &mut [u16])
    ensures sums_after { sums.new ≡ replicate (length sums.old) 0 }
    ensures lost_after { lost.new ≡ replicate (length lost.old) 0 }
{
    sums.fill(0);
    lost.fill(0);
}

// One more at the entry of x, or one less, modulo 2^32.
pub(crate) fn change(more: bool, x: usize, sums: &mut [u32])
    requires { x < length sums.old }
    ensures { Changed (either more (x ∷ []) []) (either more [] (x ∷ [])) sums.old sums.new }
{
    if more {
        sums[x] = sums[x].wrapping_add(1);
    } else {
        sums[x] = sums[x].wrapping_sub(1);
    }
}
