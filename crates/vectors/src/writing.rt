// `W` roster line | record | room: writes a tree into so many bytes, and prints the reply, the bytes' fingerprint and the text.
use crate::replies;
use cases::fields::lent_size;
use cases::packed::tree;
use cases::room::MOST;
use std::io;
use std::io::Write;

pub fn run<W: Write>(to: &mut W, case: &[u8], line: &[u8]) -> io::Result<()> {
    let mut out = [238; MOST];
    let out = &mut out[..lent_size(case, 2)];
    let reply = writer::write(line, tree(case, 1), out);
    replies::with_text(to, reply, out)
}
