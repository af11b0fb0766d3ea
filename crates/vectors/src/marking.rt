// `M` species | genes | count | room: marks the clusters in so many bytes, and prints the reply and the bytes' fingerprint;
// `m` the same for gene trees without a root.
use crate::genes::Genes;
use crate::replies;
use cases::fields::lent_size;
use cases::room::MOST;
use showing::show;
use std::io;
use std::io::Write;

pub fn run<W: Write>(to: &mut W, case: &[u8], genes: Genes) -> io::Result<()> {
    let mut out = [238; MOST];
    let out = &mut out[..lent_size(case, 3)];
    let reply = lineages::mark(
        genes.rooting,
        genes.species,
        genes.records,
        genes.count,
        out,
    );
    replies::with_lent(to, reply, out)?;
    show::byte(to, b'\n')
}
