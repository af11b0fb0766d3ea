// The program: reads all of standard input, and writes its report to standard output.
#![tactic(auto)]

ghost use Rattle.std.specs.Prelude.{◌≡◌, ◌+◌, length, OnOk, IfSome};
ghost use Rattle.std.specs.Io.KnownBytes.{Appends};
ghost use Rattle.reader.specs.Promise.{text_most};
ghost use Rattle.report.specs.Promise.{output};

use std::io;
use std::io::{Read, Write};

// One byte more than the longest text that is not refused.
const ROOM: usize = 65537;

// Room for the longest text that is not refused, and the byte too many.
fn room() -> [u8; ROOM]
    ensures { text_most + 1 ≡ length result }
{
    [0; ROOM]
}

// The program between a reader and a writer: where all is read and written, what it writes is the output for what there was to read.
#[tactic(auto, using(report::proofs::Outcomes::reported_within))]
pub fn run<R: Read, W: Write>(from: &mut R, to: &mut W) -> io::Result<()>
    ensures { OnOk result (IfSome (R.remaining from.old) (λ input. Appends (W.contents to.old) (W.contents to.new) (output input))) }
{
    let mut input = room();
    let n = streams::read_full(from, &mut input)?;
    let report = report::report(&input[..n]);
    to.write_all(&report.text[..report.len])
}

fn main(rt: HostRuntime) -> io::Result<()> {
    run(&mut rt.stdin(), &mut rt.stdout())
}
