// `S` species | genes | count | record: prints the score of the species tree; `s` the same for gene trees without a root.
use crate::genes::Genes;
use crate::replies;
use cases::packed::tree;
use std::io;
use std::io::Write;

pub fn run<W: Write>(to: &mut W, case: &[u8], genes: Genes) -> io::Result<()> {
    let reply = lineages::score(
        genes.rooting,
        genes.species,
        genes.records,
        genes.count,
        tree(case, 3),
    );
    replies::line(to, reply)
}
