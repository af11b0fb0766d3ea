// The public call: a tree's text read to its record.
ghost use Rattle.std.specs.Prelude.{◌≡◌, ◌*◌, ◌≤◌, length};
ghost use Rattle.nodes.specs.Core.{Given};
ghost use Rattle.reader.specs.Work.{ReadsTree, ReadsAnswer};
ghost use Rattle.reader.specs.Promise.{needed, reading_by, answer_to, Reads, Stores};

use crate::{Drawn, Kind, Limits, Reading};
use clusters::{whole, within};
use faults::{Fault, Refusal};
use nodes::Reader;
use nodes::answer::{Cursor, Node};
use roster::parse;
use sorting::record_of;
use tokens::{blanks, next_is, stray};
use trees::Record;

// A tree: a node and `;`, with every species of `needed` in it.
fn tree(
    reader: &Reader,
    needed: u32,
    start: usize,
    room: usize,
    found: &mut [u32],
) -> Result<Node, Refusal>
    requires { Given reader.now.count reader.now.table.now found.old 0 0 }
    ensures { ReadsTree reader.now needed start room found.old found.new result }
{
    let cursor = Cursor {
        at: start,
        seen: 0,
        stored: 0,
    };
    // the root keeps its cluster, whatever its support
    let own = None;
    let root = reader.node(cursor, room, own, found)?;
    let end = blanks(reader.text, root.next.at);
    if !next_is(reader.text, end, b';') {
        return Err(stray(reader.text, end));
    }
    if !within(needed, root.mask) {
        return Err(Fault::MissingSpecies.at(end));
    }
    let next = Cursor {
        at: end + 1,
        ..root.next
    };
    Ok(Node { next, ..root })
}

// The species that a tree of the kind must have, of `count`.
fn needed(kind: Kind, count: usize) -> u32
    requires { count ≤ 32 }
    ensures { result ≡ needed kind count }
{
    match kind {
        Kind::Species => whole(count),
        Kind::Gene => 0,
    }
}

// What is answered to a roster line and the text from `start` on, within the limits: a tree of the kind, its clusters at the front of `found`
// in the order in which its nodes end, or a refusal. `read_into` calls it, and `read_stand` with wider limits.
pub(crate) fn answered(
    limits: Limits,
    kind: Kind,
    threshold: Option<usize>,
    line: &[u8],
    text: &[u8],
    start: usize,
    found: &mut [u32],
) -> Result<Node, Refusal>
    requires most_bound { limits.most ≤ 32 }
    requires most_in_bounds { 2 * limits.most ≤ length found.old }
    ensures { ReadsAnswer limits kind threshold line.now text.now start found.old found.new result }
{
    let roster = parse(line, limits.most)?;
    if 65536 < text.len() {
        return Err(Fault::LongText.at(65536));
    }
    if text.len() < start {
        return Err(Fault::TextEnds.at(text.len()));
    }
    let reader = Reader {
        text,
        table: &roster.table,
        count: roster.count,
        threshold,
    };
    tree(
        &reader,
        needed(kind, roster.count),
        start,
        limits.room,
        found,
    )
}

// The tree of the kind that begins at `start`, with its clusters at the front of `found`, in the order in which its nodes end.
// `draw` calls it, and `counts`, which goes through the nodes of the text again.
pub fn read_into(
    kind: Kind,
    threshold: Option<usize>,
    line: &[u8],
    text: &[u8],
    start: usize,
    found: &mut [u32],
) -> Result<Drawn, Refusal>
    requires { 32 ≤ length found.old }
    ensures reads { Reads kind threshold line.now text.now start (reading_by start result) }
    ensures stores { Stores threshold (answer_to kind threshold line.now text.now start) found.new }
{
    let limits = Limits { most: 16, room: 15 };
    let root = answered(limits, kind, threshold, line, text, start, found)?;
    let Record { numbers } = record_of(found, root.next.stored);
    let next = root.next.at;
    Ok(Drawn { numbers, next })
}

// The tree of the kind that begins at `start`, over the names of the roster line; where a threshold is given, without the clusters of weak inner nodes.
pub fn draw(
    kind: Kind,
    threshold: Option<usize>,
    line: &[u8],
    text: &[u8],
    start: usize,
) -> Result<Drawn, Refusal>
    ensures { Reads kind threshold line.now text.now start (reading_by start result) }
{
    let mut found = [0; 32];
    read_into(kind, threshold, line, text, start, &mut found)
}

// The same, as a C call answers it: a refusal has the offset that was given, and a record of zeros.
pub fn read(kind: Kind, threshold: Option<usize>, line: &[u8], text: &[u8], start: usize) -> Reading
    ensures { Reads kind threshold line.now text.now start result }
{
    match draw(kind, threshold, line, text, start) {
        Ok(drawn) => {
            let numbers = drawn.numbers;
            Reading {
                number: 0,
                place: 0,
                next: drawn.next,
                numbers,
            }
        }
        Err(refusal) => Reading {
            number: refusal.fault.number(),
            place: refusal.place,
            next: start,
            numbers: [0; 32],
        },
    }
}
