// `R` roster line | text | start: reads a species tree, and prints number, place and next place, and the record; `G` the same for a gene tree.
// `T` roster line | text | start | threshold: reads a gene tree without the clusters of weak inner nodes, and prints the same.
use cases::fields::number;
use cases::packed::bytes;
use cases::room::MOST;
use reader::Kind;
use showing::show;
use std::io;
use std::io::Write;

pub fn run<W: Write>(
    to: &mut W,
    kind: Kind,
    threshold: Option<usize>,
    case: &[u8],
    line: &[u8],
) -> io::Result<()> {
    let mut space = [238; MOST];
    let text = bytes(case, 1, true, &mut space);
    let reading = reader::read(kind, threshold, line, text, number(case, 2));
    show::answer(to, reading.number, reading.place, reading.next)?;
    show::record_start(to, &reading.numbers)?;
    show::byte(to, b'\n')
}
