// What stands behind a node: nothing, or a colon and the count of its cluster; and how long that is for all clusters.
ghost use Rattle.std.specs.Prelude.{◌≡◌, ◌+◌, ◌≤◌, ◌==◌, length, get_or, sum_by, position};
ghost use Rattle.trees.specs.Records.{count};
ghost use Rattle.printing.specs.Words.{decimal};
ghost use Rattle.printing.specs.Work.{Put};
ghost use Rattle.texts.specs.Work.{Listed, Enough, lent, note_in, notes_to};

use crate::node::Source;

// Where a cluster stands among clusters, from 0.
fn position(clusters: &[u16], cluster: u32) -> Option<usize>
    ensures { result ≡ position (λ c. c == cluster) clusters.now }
{
    clusters.iter().position(|c| u32::from(*c) == cluster)
}

// Where a cluster of the record stands in it.
fn place(numbers: &[u16], cluster: u32) -> usize
    requires { Listed numbers.now cluster }
    ensures { (1 ≤ result) × (result ≤ count numbers.now) × (get_or numbers.now result 0 ≡ cluster) }
{
    let m = usize::from(numbers[0]);
    let before = position(&numbers[1..=m], cluster);
    before.unwrap() + 1
}

impl Source<'_> {
    // Writes what stands behind the cluster's node from `at` on: nothing where there are no counts; answers the offset behind it.
    pub(crate) fn note(&self, out: &mut [u8], at: usize, cluster: u32) -> usize
        requires listed { Listed self.now.numbers.now cluster }
        requires enough { Enough (lent self.now.counts) (count self.now.numbers.now) }
        requires cluster_in_bounds { at + length (note_in (lent self.now.counts) self.now.numbers.now cluster) ≤ length out.old }
        ensures { Put out.old at (note_in (lent self.now.counts) self.now.numbers.now cluster) result out.new }
    {
        let Some(counts) = self.counts else {
            return at;
        };
        let i = place(self.numbers, cluster);
        out[at] = b':';
        printing::decimal(out, at + 1, counts[i] as usize)
    }
}

// How many decimal digits a number has.
#[tactic(auto, using(printing::proofs::Digits::decimal_written))]
fn digits(x: u32) -> usize
    ensures value { result ≡ length (decimal x) }
    ensures short { result ≤ 10 }
{
    let mut buffer = itoa::Buffer::new();
    buffer.format(x).len()
}

// How many bytes the counts take behind their nodes, each with its colon.
fn noted(counts: &[u32]) -> usize
    requires { length counts.now ≤ 31 }
    ensures { result ≡ sum_by (λ k. length (decimal k) + 1) counts.now }
{
    counts.iter().map(|k| digits(*k) + 1).sum()
}

// How many bytes stand behind the nodes of the m clusters of a record. `writer` calls it with a valid record.
pub fn notes_length(counts: Option<&[u32]>, m: usize) -> usize
    requires m_bound { m ≤ 31 }
    requires enough { Enough (lent counts) m }
    ensures { result ≡ notes_to (lent counts.entry) m }
{
    match counts {
        None => 0,
        Some(counts) => noted(&counts[1..=m]),
    }
}
