// The low parts of a cluster, one after the other.
ghost use Rattle.std.specs.Prelude.{◌≡◌, ◌+◌, ◌-◌, ◌<◌, ◌≤◌};
ghost use Rattle.std.specs.Iterator.{at_most};
ghost use Rattle.clusters.specs.Sets.{size, single, lowest};

// The low parts of a cluster that are left, from the largest down: its lowest species with each part of the others but all of them.
#[derive(Clone, Copy)]
pub(crate) struct LowParts {
    low: u32,
    rest: u32,
    left: u32,
    ghost fits: { low + rest < 4294967296 },
}

impl LowParts {
    pub(crate) fn of(a: u32) -> LowParts
        requires { 2 ≤ size a }
        ensures low_alone { result.low ≡ single (lowest a) }
        ensures others { result.rest ≡ a - result.low }
        ensures all_left { result.left ≡ result.rest }
    {
        let low = clusters::single(clusters::lowest(a) as usize);
        let rest = a - low;
        LowParts {
            low,
            rest,
            left: rest,
        }
    }
}

impl Iterator for LowParts {
    ghost use Rattle.splits.specs.Falling.{LowPartSteps};

    type Item = u32;

    ghost next_gives = { LowPartSteps };

    ghost remaining = { λ parts. at_most parts.left };

    fn next(&mut self) -> Option<u32> {
        if self.left == 0 {
            return None;
        }
        self.left = (self.left - 1) & self.rest;
        Some(self.low + self.left)
    }
}
