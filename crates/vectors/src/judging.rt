// `J` roster line: judges it, and prints the reply.
use crate::replies;
use std::io;
use std::io::Write;

pub fn run<W: Write>(to: &mut W, line: &[u8]) -> io::Result<()> {
    replies::line(to, roster::judge(line))
}
