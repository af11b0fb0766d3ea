// The text of a node, down to its leaves.
ghost use Rattle.std.specs.Prelude.{◌≡◌, ◌+◌, ◌≤◌, length};
ghost use Rattle.printing.specs.Work.{Put};
ghost use Rattle.trees.specs.Records.{count};
ghost use Rattle.texts.specs.Work.{Listed, Enough, lent, cluster_text};

use crate::child::child;
use crate::label::label;

// What the text of a tree is written from: the table of names, the tree's record, and the counts of its clusters where there are any.
#[derive(Clone, Copy)]
pub struct Source<'a> {
    pub table: &'a [u8],
    pub numbers: &'a [u16],
    pub counts: Option<&'a [u32]>,
}

impl Source<'_> {
    // Writes the text of the cluster's node from `at` on, with the counts where there are any; answers the offset behind it. Every call looks into the one
    // record that is lent, carries only the cluster it is at, and goes on to its children, which are smaller. `writer` calls it with a valid record, where
    // there is room for the text.
    pub fn node(&self, out: &mut [u8], at: usize, cluster: u32) -> usize
        requires listed { Listed self.now.numbers.now cluster }
        requires table_len { length self.now.table.now ≡ 512 }
        requires enough { Enough (lent self.now.counts) (count self.now.numbers.now) }
        requires cluster_in_bounds { at + length (cluster_text (lent self.now.counts) self.now.table.now self.now.numbers.now cluster) ≤ length out.old }
        ensures { Put out.old at (cluster_text (lent self.now.counts) self.now.table.now self.now.numbers.now cluster) result out.new }
    {
        if clusters::size(cluster) == 1 {
            let end = label(out, at, self.table, clusters::lowest(cluster) as usize);
            return self.note(out, end, cluster);
        }
        let mut end = at;
        let mut left = cluster;
        let mut mark = b'(';
        // no `for`: the next child takes its species out of what is left
        while left != 0 {
            out[end] = mark;
            let next = child(self.numbers, cluster, left);
            end = self.node(out, end + 1, next);
            left -= next;
            mark = b',';
        }
        out[end] = b')';
        self.note(out, end + 1, cluster)
    }
}
