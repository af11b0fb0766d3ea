// A node, and the comma list of the nodes in a parenthesis: each calls the other.
ghost use Rattle.std.specs.Prelude.{◌≡◌, drop};
ghost use Rattle.nodes.specs.Core.{Handed, ReadsNode, ReadsList, no_comma_at};

use crate::Reader;
use crate::answer::{Cursor, Node};
use crate::leaf::ended;
use clusters::union;
use faults::{Fault, Refusal};
use tokens::behind::closing;
use tokens::{blanks, next_is, next_label, stray};

// No comma stands behind a first child: a parenthesis that closes here closes a single child.
#[tactic(auto, unfolding(crate::specs::Core::no_comma_at))]
fn no_comma(text: &[u8], at: usize) -> Refusal
    ensures { result ≡ no_comma_at (drop at text.now) at }
{
    if next_is(text, at, b')') {
        return Fault::SingleChild.at(at);
    }
    stray(text, at)
}

impl Reader<'_> {
    // The node at the cursor; `room` more parentheses may open. Its own threshold is the reader's, as for the nodes within it, or none for the root.
    // `reader` calls it, with the table that `parse` filled and room for the clusters of all species.
    #[cycle(list_node)]
    pub fn node(
        &self,
        c: Cursor,
        room: usize,
        own: Option<usize>,
        found: &mut [u32],
    ) -> Result<Node, Refusal>
        requires { Handed self.now c found.old }
        ensures { ReadsNode own self.now c room found.old found.new result }
    {
        let at = blanks(self.text, c.at);
        if next_label(self.text, at) {
            return self.leaf(Cursor { at, ..c }, found);
        }
        if !next_is(self.text, at, b'(') {
            return Err(stray(self.text, at));
        }
        if room == 0 {
            return Err(Fault::TooDeep.at(at));
        }
        let inside = Cursor { at: at + 1, ..c };
        let first = self.node(inside, room - 1, self.threshold, found)?;
        let comma = blanks(self.text, first.next.at);
        if !next_is(self.text, comma, b',') {
            return Err(no_comma(self.text, comma));
        }
        let onwards = Cursor {
            at: comma + 1,
            ..first.next
        };
        let others = self.list(onwards, room - 1, found)?;
        let figures = closing(self.text, others.next.at, self.threshold)?;
        let mask = union(first.mask, others.mask);
        Ok(ended(figures, own, mask, others.next, found))
    }

    // The nodes from the cursor up to the closing parenthesis.
    #[cycle(list_node)]
    fn list(&self, c: Cursor, room: usize, found: &mut [u32]) -> Result<Node, Refusal>
        requires { Handed self.now c found.old }
        ensures { ReadsList self.now c room found.old found.new result }
    {
        let Node { mask, next } = self.node(c, room, self.threshold, found)?;
        let at = blanks(self.text, next.at);
        if next_is(self.text, at, b',') {
            let onwards = Cursor { at: at + 1, ..next };
            let others = self.list(onwards, room, found)?;
            return Ok(Node {
                mask: union(mask, others.mask),
                ..others
            });
        }
        if next_is(self.text, at, b')') {
            let next = Cursor { at: at + 1, ..next };
            return Ok(Node { mask, next });
        }
        Err(stray(self.text, at))
    }
}
