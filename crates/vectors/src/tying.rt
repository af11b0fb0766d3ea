// `E` species | genes | count | allowed | room for scores | room for splits | room for ties: searches the least tree and counts those that
// are as good, and prints the reply, the record and the fingerprints of the three tables; `e` the same for gene trees without a root.
use crate::genes::Genes;
use cases::fields::lent_size;
use cases::packed::bytes;
use cases::room::MOST;
use showing::{show, tables};
use std::io;
use std::io::Write;

pub fn run<W: Write>(to: &mut W, case: &[u8], genes: Genes) -> io::Result<()> {
    let mut allowed = [238; MOST];
    let allowed = bytes(case, 3, false, &mut allowed);
    let mut scores = [7; MOST];
    let scores = &mut scores[..lent_size(case, 4)];
    let mut splits = [9; MOST];
    let splits = &mut splits[..lent_size(case, 5)];
    let mut ties = [5; MOST];
    let ties = &mut ties[..lent_size(case, 6)];
    let found = search::search_ties(
        genes.rooting,
        genes.species,
        genes.records,
        genes.count,
        allowed,
        scores,
        splits,
        ties,
    );
    show::answer(to, found.number, found.place, found.score)?;
    write!(to, " {}", found.ties)?;
    show::record_start(to, &found.numbers)?;
    tables::show(to, scores, splits)?;
    tables::show_ties(to, ties)?;
    show::byte(to, b'\n')
}
