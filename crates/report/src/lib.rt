// The program as a function from input bytes to output bytes.
#![tactic(auto)]

mod lines;
mod modes;

ghost use Rattle.std.specs.Prelude.{◌≡◌, true, ◌≤◌, length};
ghost use Rattle.roster.specs.Roster.{names};
ghost use Rattle.reader.specs.Promise.{text_most};
ghost use Rattle.report.specs.Input.{line_length, first_line};
ghost use Rattle.report.specs.Program.{on_species};
ghost use Rattle.report.specs.Promise.{Reports};
ghost use Rattle.outcomes.specs.Work.{answered, told, Roster};

use faults::{Fault, Refusal};
use lines::line_length;
use modes::mode_of;
use outcomes::solve::Asked;
pub use printing::Report;

// The input behind a good roster line, which ends at `end` and names n species: the mode line, and the trees.
fn on_mode(input: &[u8], end: usize, n: usize) -> Result<Report, Refusal>
    requires input_len_bound { length input.now ≤ text_most }
    requires end_value { end ≡ line_length input.now }
    requires roster { Roster (first_line input.now) n }
    ensures { answered result ≡ told (names (first_line input.now)) (on_species true input.now) }
{
    if end == input.len() {
        return Err(Fault::TextEnds.at(input.len()));
    }
    let mode = end + 1;
    let rest = &input[mode..];
    let length = line_length(rest);
    if length == rest.len() {
        return Err(Fault::TextEnds.at(input.len()));
    }
    let line = &input[..end];
    let trees = mode + length + 1;
    let word = &rest[..length];
    let Some((all, rooting)) = mode_of(word) else {
        return Err(Fault::StrayByte.at(mode));
    };
    let asked = Asked {
        line,
        n,
        all,
        rooting,
    };
    asked.on_trees(&input[trees..], trees)
}

// "Checks: 2, 1, 17, mode, trees, 11, 14", with 19 "after 11" (#106).
fn reported(input: &[u8]) -> Result<Report, Refusal>
    ensures { Reports input.now (answered result) }
{
    if 65536 < input.len() {
        return Err(Fault::LongText.at(65536));
    }
    let end = line_length(input);
    let n = roster::parse(&input[..end], 16)?.count;
    if 12 < n {
        return Err(Fault::TooLarge.at(0));
    }
    on_mode(input, end, n)
}

// The report of an input: what is found of it, or the line of the refusal.
pub fn report(input: &[u8]) -> Report
    ensures { Reports input.now result }
{
    reported(input).unwrap_or_else(Report::from)
}
