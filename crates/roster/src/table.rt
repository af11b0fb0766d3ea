// The table of names, sixteen bytes each: from a name to its species, and back.
ghost use Rattle.std.specs.Prelude.{◌≡◌, ◌+◌, ◌*◌, ◌≤◌, length};
ghost use Rattle.std.proofs.Math.Seq.{paste};
ghost use Rattle.labels.specs.Bytes.{run};
ghost use Rattle.roster.specs.Roster.{position};
ghost use Rattle.roster.specs.Table.{slots, slot as slot_of, non_zero, Sought};

// The i-th sixteen of the table.
fn slot(table: &[u8], i: usize) -> &[u8]
    requires { 16 * i + 16 ≤ length table.now }
    ensures { result.now ≡ slot_of table.now i }
{
    &table[16 * i..16 * i + 16]
}

// The species of a name: where it stands among the first `count` of the table. Table and count are apart as `nodes: Core.Given` and `Core.Holds` have them. `nodes` calls it with the table that `parse` filled, which has sixteen bytes for each of the names counted.
pub fn species(table: &[u8], count: usize, name: [u8; 16]) -> Option<usize>
    requires { 16 * count ≤ length table.now }
    ensures { Sought count (position name (slots count table.now)) result }
{
    (0..count).find(|i| name.as_slice() == slot(table, *i))
}

// Writes the name as the i-th of the table.
pub(crate) fn enter(table: &mut [u8], i: usize, name: [u8; 16])
    requires { 16 * i + 16 ≤ length table.old }
    ensures { table.new ≡ paste table.old (16 * i) name 16 }
{
    let start = 16 * i;
    table[start..start + 16].copy_from_slice(&name);
}

// The length of the i-th name of the table. `texts` calls it with the table that `parse` filled, which has sixteen bytes for each of 32 species.
pub fn name_len(table: &[u8], i: usize) -> usize
    requires { 16 * i + 16 ≤ length table.now }
    ensures { result ≡ run non_zero (slot_of table.now i) }
{
    slot(table, i).iter().position(|b| *b == 0).unwrap_or(16)
}
