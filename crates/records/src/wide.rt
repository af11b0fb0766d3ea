// Which 64 numbers are a valid wide record: that of a gene tree on individuals, of which there are up to 32.
ghost use Rattle.std.specs.Prelude.{◌≡◌, ◌≤◌, length};
ghost use Rattle.trees.specs.Decides.{Decides};
ghost use Rattle.trees.specs.Records.{GeneValidFor};

use crate::judging;

// Whether r is a valid record of a gene tree for m individuals. The calls on a stand ask it of 64 numbers and at most 32 individuals.
// A front of one line over the judgement of both breadths: a trait of both widths of numbers would be longer than both fronts.
pub fn valid_gene(r: &[u32], m: usize) -> bool
    requires r_len { length r.now ≡ 64 }
    requires m_bound { m ≤ 32 }
    ensures { Decides result (GeneValidFor 32 m r.now) }
{
    judging::valid_gene(r, 32, m)
}
