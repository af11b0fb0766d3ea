// The lines of the mapping, one for each species: its label, a colon, the labels of its individuals, and a line feed.
ghost use Rattle.std.specs.Prelude.{◌≤◌, length};
ghost use Rattle.mapping.specs.Work.{HeadRead, MemberRead, GroupRead, GroupsRead};

use crate::label::label_at;
use clusters::{apart, single, union, whole};
use faults::{Fault, Refusal};
use labels::next_is;
use roster::{Roster, species};

// Individuals that were read, as a set, and the byte behind them.
#[derive(Clone, Copy, Debug, PartialEq, Eq)]
pub struct Individuals {
    pub set: u32,
    pub next: usize,
}

// The label of the i-th species at `at`, and the colon behind it: where the individuals begin.
fn head_at(species_line: &Roster, i: usize, text: &[u8], at: usize) -> Result<usize, Refusal>
    requires { (species_line.now.count ≤ 16) × (at ≤ length text.now) }
    ensures { HeadRead species_line.now.table species_line.now.count i text.now at result }
{
    let label = label_at(text, at)?;
    let found = species(&species_line.table, species_line.count, label.name);
    let due = found.is_some_and(|j| j == i);
    if !due {
        return Err(Fault::FaultyMapping.at(at));
    }
    if !next_is(text, label.next, b':') {
        return Err(Fault::FaultyMapping.at(label.next));
    }
    Ok(label.next + 1)
}

// The label of one of the individuals at `at`, of none that is taken. A byte stands behind it.
fn member_at(
    individuals: &Roster,
    text: &[u8],
    at: usize,
    taken: u32,
) -> Result<Individuals, Refusal>
    requires { (individuals.now.count ≤ 32) × (at ≤ length text.now) }
    ensures { MemberRead individuals.now.table individuals.now.count text.now at taken result }
{
    let label = label_at(text, at)?;
    let Some(who) = species(&individuals.table, individuals.count, label.name) else {
        return Err(Fault::FaultyMapping.at(at));
    };
    let one = single(who);
    if !apart(one, taken) {
        return Err(Fault::FaultyMapping.at(at));
    }
    if label.next == text.len() {
        return Err(Fault::FaultyMapping.at(label.next));
    }
    Ok(Individuals {
        set: one,
        next: label.next,
    })
}

// The individuals of a line from `start` on, none of those that are taken, up to behind its line feed.
fn group_at(
    individuals: &Roster,
    text: &[u8],
    start: usize,
    taken: u32,
) -> Result<Individuals, Refusal>
    requires { (individuals.now.count ≤ 32) × (start ≤ length text.now) }
    ensures { GroupRead individuals.now.table individuals.now.count text.now start taken result }
{
    let mut set = 0u32;
    let mut at = start;
    // No `for`: a label says itself where the next one begins.
    loop {
        let member = member_at(individuals, text, at, union(taken, set))?;
        set = union(set, member.set);
        at = member.next + 1;
        match text[member.next] {
            b'\n' => return Ok(Individuals { set, next: at }),
            b',' => {}
            _ => return Err(Fault::FaultyMapping.at(member.next)),
        }
    }
}

// The lines of all species, each individual in one of them: for each species the set of its individuals. `judge` calls it with two good rosters.
pub(crate) fn read_groups(
    species_line: &Roster,
    individuals: &Roster,
    text: &[u8],
) -> Result<[u32; 16], Refusal>
    requires { (species_line.now.count ≤ 16) × (individuals.now.count ≤ 32) }
    ensures { GroupsRead species_line.now.table species_line.now.count individuals.now.table individuals.now.count text.now result }
{
    let mut groups = [0u32; 16];
    let mut taken = 0u32;
    let mut at = 0;
    for i in 0..species_line.count {
        let start = head_at(species_line, i, text, at)?;
        let group = group_at(individuals, text, start, taken)?;
        groups[i] = group.set;
        taken = union(taken, group.set);
        at = group.next;
    }
    if at < text.len() || taken != whole(individuals.count) {
        return Err(Fault::FaultyMapping.at(at));
    }
    Ok(groups)
}
