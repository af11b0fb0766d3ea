// A record written back as tree text, in the one form.
#![tactic(auto)]

ghost use Rattle.std.specs.Prelude.{List, ℕ};
ghost use Rattle.trees.specs.Records.{count, GeneValid};
ghost use Rattle.roster.specs.Judged.{reply_to};
ghost use Rattle.texts.specs.Work.{Enough, lent};
ghost use Rattle.writer.specs.Promise.{Writes};
ghost use Rattle.writer.specs.Work.{Given, PutsTree};

use faults::{Fault, Refusal};
use roster::{Reply, reply_to};
use texts::label::text_length;
use texts::node::Source;
use texts::note::notes_length;
use trees::Record;

// Writes the text of a valid record on the n names of a roster's table into out, with the count of each cluster behind its node where there are counts, and
// answers its length. Where it does not fit, out stays as it was: the length is judged before a byte is written. `write` calls it without counts
// and `counts` with them, each behind its checks.
pub fn put(
    table: &[u8],
    n: usize,
    numbers: &[u16],
    counts: Option<&[u32]>,
    out: &mut [u8],
) -> Result<usize, Refusal>
    requires by_index { (line : List ℕ) × Given line n table.now }
    requires gene_valid { GeneValid n numbers.now }
    requires enough { Enough (lent counts) (count numbers.now) }
    ensures { PutsTree n table.now numbers.now (lent counts.entry) out.old (reply_to result) out.new }
{
    let m = numbers[0] as usize;
    let all = numbers[m] as u32;
    let length = text_length(table, n, all, m) + notes_length(counts, m);
    if out.len() < length {
        return Err(Fault::ShortSlice.at(0));
    }
    let source = Source {
        table,
        numbers,
        counts,
    };
    let end = source.node(out, 0, all);
    out[end] = b';';
    Ok(length)
}

// The checks of `write`, and the text behind them.
fn written(line: &[u8], tree: Record, out: &mut [u8]) -> Result<usize, Refusal>
    ensures { Writes line.now tree.numbers out.old (reply_to result) out.new }
{
    let roster = roster::parse(line, 16)?;
    let n = roster.count;
    let table = roster.table;
    let numbers = tree.numbers;
    if !records::valid_gene(&numbers, n) {
        return Err(Fault::BadRecord.at(0));
    }
    put(&table, n, &numbers, None, out)
}

// Writes the text of the tree, which may lack species of the roster, into out, and answers its length. What is refused leaves out as it was.
pub fn write(line: &[u8], tree: Record, out: &mut [u8]) -> Reply
    ensures { Writes line.now tree.numbers out.old result out.new }
{
    reply_to(written(line, tree, out))
}
