// `H` species | genes | count | records | positions: fills a sheet with an entry for each position, and prints the reply and the entries;
// `h` the same for gene trees without a root.
ghost use Rattle.std.specs.Prelude.{◌≤◌, length};

use crate::genes::Genes;
use cases::fields::{behind, decimal, field};
use cases::packed::numbers;
use cases::room::NUMBERS;
use sheet::Entry;
use showing::show;
use std::io;
use std::io::Write;

// An entry before the call.
fn entry_at(position: usize) -> Entry {
    Entry {
        position,
        number: 5,
        score: 6,
    }
}

// Puts an entry for each position, as far as there is room, and answers how many there are.
fn put_entries(positions: &[u8], entries: &mut [Entry]) -> usize
    ensures { result ≤ length entries.new }
{
    let mut at = 0;
    for (i, entry) in entries.iter_mut().enumerate() {
        if at == positions.len() {
            return i;
        }
        let position = decimal(positions, at);
        *entry = entry_at(position.value);
        at = behind(positions, position.next);
    }
    entries.len()
}

pub fn run<W: Write>(to: &mut W, case: &[u8], genes: Genes) -> io::Result<()> {
    let mut records = [9; NUMBERS];
    let records = numbers(case, 3, false, &mut records);
    let mut entries = [entry_at(0); 64];
    let size = put_entries(field(case, 4), &mut entries);
    let entries = &mut entries[..size];
    let reply = sheet::sheet(
        genes.rooting,
        genes.species,
        genes.records,
        genes.count,
        records,
        entries,
    );
    show::answer(to, reply.number, reply.place, reply.value)?;
    for e in &*entries {
        write!(to, " {}:{}:{}", e.position, e.number, e.score)?;
    }
    show::byte(to, b'\n')
}
