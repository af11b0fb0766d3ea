// The mapping of a stand: which individuals of the second roster each species of the first has (#110).
#![tactic(auto)]

mod label;
mod lines;

ghost use Rattle.mapping.specs.Promise.{StandParsed};

use faults::Refusal;
use lines::read_groups;
use roster::parse;

// A good stand: how many species and individuals it has, and for each species the set of its individuals.
#[derive(Clone, Copy, Debug, PartialEq, Eq)]
pub struct Stand {
    pub species: usize,
    pub individuals: usize,
    pub groups: [u32; 16],
}

// The rosters judged, then the mapping.
pub fn judge(line: &[u8], individuals: &[u8], mapping: &[u8]) -> Result<Stand, Refusal>
    ensures { StandParsed line.now individuals.now mapping.now result }
{
    let first = parse(line, 16)?;
    let second = parse(individuals, 32)?;
    let groups = read_groups(&first, &second, mapping)?;
    Ok(Stand {
        species: first.count,
        individuals: second.count,
        groups,
    })
}
