// `F` species | genes | count | allowed | room for scores | room for splits: searches the least tree, and prints the reply, the record
// and the fingerprints of the two tables; `f` the same for gene trees without a root.
use crate::genes::Genes;
use cases::fields::lent_size;
use cases::packed::bytes;
use cases::room::MOST;
use showing::{show, tables};
use std::io;
use std::io::Write;

pub fn run<W: Write>(to: &mut W, case: &[u8], genes: Genes) -> io::Result<()> {
    let mut allowed = [238; MOST];
    let allowed = bytes(case, 3, false, &mut allowed);
    let mut scores = [7; MOST];
    let scores = &mut scores[..lent_size(case, 4)];
    let mut splits = [9; MOST];
    let splits = &mut splits[..lent_size(case, 5)];
    let found = search::search(
        genes.rooting,
        genes.species,
        genes.records,
        genes.count,
        allowed,
        scores,
        splits,
    );
    show::answer(to, found.number, found.place, found.score)?;
    show::record_start(to, &found.numbers)?;
    tables::show(to, scores, splits)?;
    show::byte(to, b'\n')
}
