// `O` roster line | genes | count | record | room: writes a species tree with its branch counts into so many bytes, and prints what `W` does.
use crate::replies;
use cases::fields::{lent_size, number};
use cases::packed::{numbers, tree};
use cases::room::{MOST, NUMBERS};
use std::io;
use std::io::Write;

pub fn run<W: Write>(to: &mut W, case: &[u8], line: &[u8]) -> io::Result<()> {
    let mut records = [9; NUMBERS];
    let records = numbers(case, 1, false, &mut records);
    let mut out = [238; MOST];
    let out = &mut out[..lent_size(case, 4)];
    let reply = counts::write_counts(line, records, number(case, 2), tree(case, 3), out);
    replies::with_text(to, reply, out)
}
