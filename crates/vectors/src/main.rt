// Runs the cases of standard input through the public calls, one a line, and prints each answer.
// docs/src/cases.rs says how a case and its answer are written, and does the same in Rust.
#![tactic(auto)]

mod calls;
mod checking;
mod counting;
mod genes;
mod judging;
mod marking;
mod reading;
mod replies;
mod reporting;
mod scoring;
mod searching;
mod sheeting;
mod tying;
mod visiting;
mod weighing;
mod writing;

ghost use Rattle.std.specs.Prelude.{◌≡◌, length};

use cases::fields::end_of;
use cases::room::CASES;
use std::io;
use std::io::Write;

// Runs each line as a case.
fn run_lines<W: Write>(to: &mut W, input: &[u8]) -> io::Result<()> {
    for line in input.split_inclusive(|b| *b == b'\n') {
        let end = end_of(line, 0, b'\n');
        calls::run(to, &line[..end])?;
    }
    Ok(())
}

// So many bytes. It promises their length alone, for the case file is too large for a proof to look into.
fn zeros<const N: usize>() -> [u8; N]
    ensures { N ≡ length result }
{
    [0; N]
}

fn main(rt: HostRuntime) -> io::Result<()> {
    let mut space = zeros::<CASES>();
    let got = streams::read_full(&mut rt.stdin(), &mut space)?;
    run_lines(&mut rt.stdout(), &space[..got])
}
