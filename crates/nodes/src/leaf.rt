// A leaf, and the end of any node.
ghost use Rattle.std.specs.Prelude.{◌≡◌, ◌<◌, length};
ghost use Rattle.nodes.specs.Core.{ended_as, kept_as, Handed, ReadsLeaf};

use crate::Reader;
use crate::answer::{Cursor, Node};
use clusters::{apart, single, union};
use faults::{Fault, Refusal};
use labels::scan;
use roster::species;
use tokens::behind::behind;
use tokens::{Figures, below};

// The node with this set of leaves that ends behind these numbers: its cluster is stored, unless its support lies below its own threshold.
pub(crate) fn ended(
    figures: Figures,
    own: Option<usize>,
    mask: u32,
    c: Cursor,
    found: &mut [u32],
) -> Node
    requires { c.stored < length found.old }
    ensures value { result ≡ ended_as own mask c.seen c.stored figures }
    ensures found_after { found.new ≡ kept_as own mask c.stored found.old figures }
{
    let at = figures.next;
    if below(own, figures.support) {
        return Node {
            mask,
            next: Cursor { at, ..c },
        };
    }
    found[c.stored] = mask;
    Node {
        mask,
        next: Cursor {
            at,
            stored: c.stored + 1,
            ..c
        },
    }
}

impl Reader<'_> {
    // The leaf whose name begins at the cursor. The name is judged when its label ends: unknown, then repeated.
    pub(crate) fn leaf(&self, c: Cursor, found: &mut [u32]) -> Result<Node, Refusal>
        requires { Handed self.now c found.old }
        ensures { ReadsLeaf self.now c found.old found.new result }
    {
        let at = c.at;
        let scanned = scan(self.text, at)?;
        let Some(i) = species(self.table, self.count, scanned.name) else {
            return Err(Fault::UnknownName.at(at));
        };
        let mask = single(i);
        if !apart(mask, c.seen) {
            return Err(Fault::RepeatedName.at(at));
        }
        let figures = behind(self.text, scanned.next, self.threshold)?;
        // a leaf never loses its cluster
        let own = None;
        let seen = union(c.seen, mask);
        Ok(ended(figures, own, mask, Cursor { seen, ..c }, found))
    }
}
