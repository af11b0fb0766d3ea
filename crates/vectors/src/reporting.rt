// `P` input: prints what the program prints for it.
use showing::show;
use std::io;
use std::io::Write;

pub fn run<W: Write>(to: &mut W, input: &[u8]) -> io::Result<()> {
    let report = report::report(input);
    show::start_of(to, &report.text, report.len)
}
