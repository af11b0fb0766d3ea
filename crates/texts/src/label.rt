// Names written from the table, and how long the text is that holds those of a set.
ghost use Rattle.std.specs.Prelude.{◌≡◌, ◌+◌, ◌*◌, ◌≤◌, length};
ghost use Rattle.clusters.specs.Sets.{single, size, within};
ghost use Rattle.printing.specs.Work.{Put};
ghost use Rattle.texts.specs.Writing.{label as Writing·label};
ghost use Rattle.texts.specs.Work.{name_in, names_in, bytes_if, labels_in};

use crate::forms::{written, written_length};

// The name of species i.
fn name(table: &[u8], i: usize) -> &[u8]
    requires { 16 * i + 16 ≤ length table.now }
    ensures value { result.now ≡ name_in table.now i }
    ensures short { length result.now ≤ 16 }
{
    let start = 16 * i;
    &table[start..start + roster::name_len(table, i)]
}

// Writes the label of species i from `at` on; answers the offset behind it.
pub(crate) fn label(out: &mut [u8], at: usize, table: &[u8], i: usize) -> usize
    requires i_in_bounds { 16 * i + 16 ≤ length table.now }
    requires i_in_bounds_2 { at + length (Writing·label (name_in table.now i)) ≤ length out.old }
    ensures { Put out.old at (Writing·label (name_in table.now i)) result out.new }
{
    written(out, at, name(table, i))
}

// The length of the label of species i, where it is in the set; else 0.
fn label_length(table: &[u8], i: usize, set: u32) -> usize
    requires { (i ≤ 15) × (16 * i + 16 ≤ length table.now) }
    ensures { result ≡ bytes_if (within (single i) set) (length (Writing·label (name_in table.now i))) }
{
    if clusters::within(clusters::single(i), set) {
        written_length(name(table, i))
    } else {
        0
    }
}

// The length of the text of a record of m clusters on a set of the n species: the labels of the set, and two bytes for each cluster less one for each species of it.
// `writer` calls it with a valid record.
pub fn text_length(table: &[u8], n: usize, set: u32, m: usize) -> usize
    requires n_bound { (n ≤ 16) × (16 * n ≤ length table.now) }
    requires set_bound { (size set ≤ 2 * m) × (m ≤ 31) }
    ensures { result + size set ≡ labels_in (names_in n table.now) set n + 2 * m }
{
    let mut total = 2 * m;
    for i in 0..n {
        total += label_length(table, i, set);
    }
    total - clusters::size(set) as usize
}
