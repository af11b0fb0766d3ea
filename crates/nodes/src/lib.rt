// The nodes of tree text: a leaf, a node, the nodes of a parenthesis, each with the set of its leaves.
#![tactic(auto)]

ghost use Rattle.std.specs.Prelude.{◌≤◌, ◌*◌, length};

pub mod answer;
mod leaf;
mod node;

// What a text is read by: the names in the table, sixteen bytes for each of those counted, and the threshold for supports, if one is given.
// The count stands beside the table, for `roster` fills one of 512 bytes and looks names up by both. A set of species has 32 bits.
#[derive(Clone, Copy)]
pub struct Reader<'a> {
    pub text: &'a [u8],
    pub table: &'a [u8],
    pub count: usize,
    pub threshold: Option<usize>,
    pub ghost few: { count ≤ 32 },
    pub ghost long: { 16 * count ≤ length table.now },
}
