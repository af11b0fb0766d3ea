// The output of an answer: the lines of the counts, and the tree's text behind them.
ghost use Rattle.std.specs.Prelude.{◌≡◌};
ghost use Rattle.trees.specs.Records.{SpeciesValid};
ghost use Rattle.roster.specs.Roster.{names};
ghost use Rattle.outcomes.specs.Outcome.Outcome.{solved as Outcome·solved};
ghost use Rattle.outcomes.specs.Work.{told};

use crate::solve::Asked;
use printing::{Report, counts, word};
use trees::Record;

// Species and gene trees read, the score, the ties and the tree.
pub(crate) fn solved(
    asked: &Asked<'_>,
    count: usize,
    score: usize,
    ties: u64,
    tree: Record,
) -> Report
    requires { SpeciesValid asked.now.n tree.numbers }
    ensures { result ≡ told (names asked.now.line.now) (Outcome·solved asked.now.n count score ties tree.numbers) }
{
    let mut text = [0u8; 1024];
    let at = counts(&mut text, asked.n, count, score, ties);
    let written = writer::write(asked.line, tree, &mut text[at..]);
    let len = word(&mut text, at + written.value, b"\n");
    Report { len, text }
}
