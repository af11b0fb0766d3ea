// The library for C and Rust: each name has the promise of the call that it wraps. include/speciestree.h declares the same.
#![tactic(auto)]

ghost use Rattle.std.specs.Prelude.{None, Some};
ghost use Rattle.roster.specs.Judged.{Judged};
ghost use Rattle.reader.specs.Promise.{Reads};
ghost use Rattle.reader.specs.declared.Kind.TheVariants.{Species, Gene};
ghost use Rattle.writer.specs.Promise.{Writes};
ghost use Rattle.weights.specs.declared.Rooting.TheVariants.{Rooted, Unrooted};
ghost use Rattle.lineages.specs.Promise.{Weighs, Scores, Marks};
ghost use Rattle.sheet.specs.Promise.{Sheets};
ghost use Rattle.search.specs.Promise.{Finds};
ghost use Rattle.search.specs.TiesPromise.{FindsTies};
ghost use Rattle.plain.specs.Promise.{FindsPlainly};
ghost use Rattle.counts.specs.Promise.{Checks, WritesCounts};

use reader::{Kind, Reading};
use roster::Reply;
use search::{Found, Tied};
use sheet::Entry;
use trees::Record;
use weights::Rooting;

// Judges a roster line; the value is how many species it has.
#[unsafe(no_mangle)]
pub extern "C" fn st_roster(line: &[u8]) -> Reply
    ensures { Judged line.now result }
{
    roster::judge(line)
}

// Reads the species tree that begins at `start`.
#[unsafe(no_mangle)]
pub extern "C" fn st_read(line: &[u8], text: &[u8], start: usize) -> Reading
    ensures { Reads Species None line.now text.now start result }
{
    reader::read(Kind::Species, None, line, text, start)
}

// Reads the gene tree that begins at `start`, which may lack species.
#[unsafe(no_mangle)]
pub extern "C" fn st_read_gene(line: &[u8], text: &[u8], start: usize) -> Reading
    ensures { Reads Gene None line.now text.now start result }
{
    reader::read(Kind::Gene, None, line, text, start)
}

// Reads the gene tree that begins at `start`, without the clusters of inner nodes, not the root, whose support lies below the threshold, in whole thousandths.
#[unsafe(no_mangle)]
pub extern "C" fn st_read_supported(
    line: &[u8],
    text: &[u8],
    start: usize,
    threshold: usize,
) -> Reading
    ensures { Reads Gene (Some threshold) line.now text.now start result }
{
    reader::read(Kind::Gene, Some(threshold), line, text, start)
}

// Writes a tree's text into `out`; the value is its length.
#[unsafe(no_mangle)]
pub extern "C" fn st_write(line: &[u8], tree: Record, out: &mut [u8]) -> Reply
    ensures { Writes line.now tree.numbers out.old result out.new }
{
    writer::write(line, tree, out)
}

// The weight of a cluster, the gene trees counted with their roots.
#[unsafe(no_mangle)]
pub extern "C" fn st_weight(n: usize, genes: &[u16], count: usize, cluster: usize) -> Reply
    ensures { Weighs Rooted n genes.now count cluster result }
{
    lineages::weight(Rooting::Rooted, n, genes, count, cluster)
}

// The same for gene trees without a root.
#[unsafe(no_mangle)]
pub extern "C" fn st_weight_unrooted(n: usize, genes: &[u16], count: usize, cluster: usize) -> Reply
    ensures { Weighs Unrooted n genes.now count cluster result }
{
    lineages::weight(Rooting::Unrooted, n, genes, count, cluster)
}

// The score of a species tree.
#[unsafe(no_mangle)]
pub extern "C" fn st_score(n: usize, genes: &[u16], count: usize, species: Record) -> Reply
    ensures { Scores Rooted n genes.now count species.numbers result }
{
    lineages::score(Rooting::Rooted, n, genes, count, species)
}

// The same for gene trees without a root.
#[unsafe(no_mangle)]
pub extern "C" fn st_score_unrooted(n: usize, genes: &[u16], count: usize, species: Record) -> Reply
    ensures { Scores Unrooted n genes.now count species.numbers result }
{
    lineages::score(Rooting::Unrooted, n, genes, count, species)
}

// Marks the clusters that the gene trees show.
#[unsafe(no_mangle)]
pub extern "C" fn st_mark(n: usize, genes: &[u16], count: usize, out: &mut [u8]) -> Reply
    ensures { Marks Rooted n genes.now count out.old result out.new }
{
    lineages::mark(Rooting::Rooted, n, genes, count, out)
}

// Marks the clusters that they show without a root: the complements too.
#[unsafe(no_mangle)]
pub extern "C" fn st_mark_unrooted(n: usize, genes: &[u16], count: usize, out: &mut [u8]) -> Reply
    ensures { Marks Unrooted n genes.now count out.old result out.new }
{
    lineages::mark(Rooting::Unrooted, n, genes, count, out)
}

// Scores a sheet of candidate trees: fills each entry's number and score.
#[unsafe(no_mangle)]
pub extern "C" fn st_sheet(
    n: usize,
    genes: &[u16],
    count: usize,
    records: &[u16],
    entries: &mut [Entry],
) -> Reply
    ensures { Sheets Rooted n genes.now count records.now entries.old result entries.new }
{
    sheet::sheet(Rooting::Rooted, n, genes, count, records, entries)
}

// The same for gene trees without a root.
#[unsafe(no_mangle)]
pub extern "C" fn st_sheet_unrooted(
    n: usize,
    genes: &[u16],
    count: usize,
    records: &[u16],
    entries: &mut [Entry],
) -> Reply
    ensures { Sheets Unrooted n genes.now count records.now entries.old result entries.new }
{
    sheet::sheet(Rooting::Unrooted, n, genes, count, records, entries)
}

// The first least-scoring species tree over the allowed clusters; fills both tables.
#[unsafe(no_mangle)]
pub extern "C" fn st_search(
    n: usize,
    genes: &[u16],
    count: usize,
    allowed: &[u8],
    scores: &mut [u32],
    splits: &mut [u16],
) -> Found
    ensures { Finds Rooted n genes.now count allowed.now scores.old splits.old result scores.new splits.new }
{
    search::search(Rooting::Rooted, n, genes, count, allowed, scores, splits)
}

// The same for gene trees without a root.
#[unsafe(no_mangle)]
pub extern "C" fn st_search_unrooted(
    n: usize,
    genes: &[u16],
    count: usize,
    allowed: &[u8],
    scores: &mut [u32],
    splits: &mut [u16],
) -> Found
    ensures { Finds Unrooted n genes.now count allowed.now scores.old splits.old result scores.new splits.new }
{
    search::search(Rooting::Unrooted, n, genes, count, allowed, scores, splits)
}

// The same search, and how many trees over the allowed clusters reach the least score; fills the third table, too.
#[unsafe(no_mangle)]
pub extern "C" fn st_search_ties(
    n: usize,
    genes: &[u16],
    count: usize,
    allowed: &[u8],
    scores: &mut [u32],
    splits: &mut [u16],
    ties: &mut [u64],
) -> Tied
    ensures { FindsTies Rooted n genes.now count allowed.now scores.old splits.old ties.old result scores.new splits.new ties.new }
{
    search::search_ties(
        Rooting::Rooted,
        n,
        genes,
        count,
        allowed,
        scores,
        splits,
        ties,
    )
}

// The same for gene trees without a root.
#[unsafe(no_mangle)]
pub extern "C" fn st_search_ties_unrooted(
    n: usize,
    genes: &[u16],
    count: usize,
    allowed: &[u8],
    scores: &mut [u32],
    splits: &mut [u16],
    ties: &mut [u64],
) -> Tied
    ensures { FindsTies Unrooted n genes.now count allowed.now scores.old splits.old ties.old result scores.new splits.new ties.new }
{
    search::search_ties(
        Rooting::Unrooted,
        n,
        genes,
        count,
        allowed,
        scores,
        splits,
        ties,
    )
}

// The tree of the search for at most seven species, found by going through all binary trees.
#[unsafe(no_mangle)]
pub extern "C" fn st_plain(n: usize, genes: &[u16], count: usize, allowed: &[u8]) -> Found
    ensures { FindsPlainly Rooted n genes.now count allowed.now result }
{
    plain::plain(Rooting::Rooted, n, genes, count, allowed)
}

// The same for gene trees without a root.
#[unsafe(no_mangle)]
pub extern "C" fn st_plain_unrooted(n: usize, genes: &[u16], count: usize, allowed: &[u8]) -> Found
    ensures { FindsPlainly Unrooted n genes.now count allowed.now result }
{
    plain::plain(Rooting::Unrooted, n, genes, count, allowed)
}

// Checks a species text that came with branch counts against the gene trees; the value is the distance of its score above the least one, and both tables are filled.
#[unsafe(no_mangle)]
pub extern "C" fn st_check(
    line: &[u8],
    text: &[u8],
    start: usize,
    genes: &[u16],
    count: usize,
    scores: &mut [u32],
    splits: &mut [u16],
) -> Reply
    ensures { Checks line.now text.now start genes.now count scores.old splits.old result scores.new splits.new }
{
    counts::check(line, text, start, genes, count, scores, splits)
}

// Writes the text of a species tree with the weight of its cluster behind each node into `out`; the value is its length.
#[unsafe(no_mangle)]
pub extern "C" fn st_write_counts(
    line: &[u8],
    genes: &[u16],
    count: usize,
    species: Record,
    out: &mut [u8],
) -> Reply
    ensures { WritesCounts line.now genes.now count species.numbers out.old result out.new }
{
    counts::write_counts(line, genes, count, species, out)
}
