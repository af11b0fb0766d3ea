// `L` species | genes | count | allowed: finds the least tree by going through all binary trees, and prints the reply and the record;
// `l` the same for gene trees without a root.
use crate::genes::Genes;
use cases::packed::bytes;
use cases::room::MOST;
use showing::show;
use std::io;
use std::io::Write;

pub fn run<W: Write>(to: &mut W, case: &[u8], genes: Genes) -> io::Result<()> {
    let mut space = [238; MOST];
    let allowed = bytes(case, 3, false, &mut space);
    let found = plain::plain(
        genes.rooting,
        genes.species,
        genes.records,
        genes.count,
        allowed,
    );
    show::answer(to, found.number, found.place, found.score)?;
    show::record_start(to, &found.numbers)?;
    show::byte(to, b'\n')
}
