// `K` species | genes | count | cluster: prints the weight of the cluster; `k` the same for gene trees without a root.
use crate::genes::Genes;
use crate::replies;
use cases::fields::number;
use std::io;
use std::io::Write;

pub fn run<W: Write>(to: &mut W, case: &[u8], genes: Genes) -> io::Result<()> {
    let reply = lineages::weight(
        genes.rooting,
        genes.species,
        genes.records,
        genes.count,
        number(case, 3),
    );
    replies::line(to, reply)
}
