// At which entry a set that a gene tree adds or takes off is counted: at its own, or on a stand (#110) at that of its species. A set of individuals lies within those of a set of
// species where its own species lie within that set: so there the table is one of sets of species, as for gene trees on species.
ghost use Rattle.std.specs.Prelude.{ℕ, ◌≡◌, ◌≤◌, length};
ghost use Rattle.weights.specs.Stand.{species_in};

pub(crate) trait Seen {
    ghost entry: { Self → ℕ → ℕ };

    fn entry(&self, x: u32) -> u32
        ensures { result ≡ entry self.now x };
}

// Each set at its own.
#[derive(Clone, Copy)]
pub(crate) struct Itself;

impl Seen for Itself {
    ghost entry = { λ s x. x };

    fn entry(&self, x: u32) -> u32 {
        x
    }
}

// Each set of individuals at its species: the groups are the individuals of each.
#[derive(Clone, Copy)]
pub(crate) struct Species<'a> {
    pub(crate) groups: &'a [u32],
    ghost few: { length groups.now ≤ 16 },
}

impl Seen for Species<'_> {
    ghost entry = { λ s x. species_in s.groups.now x };

    fn entry(&self, x: u32) -> u32 {
        let mut met = 0;
        for (i, group) in self.groups.iter().enumerate() {
            if !clusters::apart(*group, x) {
                met = clusters::union(met, clusters::single(i));
            }
        }
        met
    }
}
