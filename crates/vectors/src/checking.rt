// `C` roster line | text | start | genes | count | room for scores | room for splits: checks a text that came with branch counts, and prints
// the reply and the fingerprints of the two tables.
use cases::fields::{lent_size, number};
use cases::packed::{bytes, numbers};
use cases::room::{MOST, NUMBERS};
use showing::{show, tables};
use std::io;
use std::io::Write;

pub fn run<W: Write>(to: &mut W, case: &[u8], line: &[u8]) -> io::Result<()> {
    let mut text = [238; MOST];
    let text = bytes(case, 1, true, &mut text);
    let mut records = [9; NUMBERS];
    let records = numbers(case, 3, false, &mut records);
    let mut scores = [7; MOST];
    let scores = &mut scores[..lent_size(case, 5)];
    let mut splits = [9; MOST];
    let splits = &mut splits[..lent_size(case, 6)];
    let start = number(case, 2);
    let count = number(case, 4);
    let reply = counts::check(line, text, start, records, count, scores, splits);
    show::answer(to, reply.number, reply.place, reply.value)?;
    tables::show(to, scores, splits)?;
    show::byte(to, b'\n')
}
