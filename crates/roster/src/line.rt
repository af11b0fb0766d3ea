// The roster line: labels parted by one space, and the first byte at fault.
ghost use Rattle.std.specs.Prelude.{◌≡◌, ◌≤◌};
ghost use Rattle.roster.specs.Judged.{Judged, roster_of};

use crate::table::{enter, species};
use crate::{Reply, Roster, reply_to};
use faults::{Fault, Refusal};
use labels::{is_label, scan};

// Reads the line from the left. At the top of the loop a label has to begin at `at`. `reader`, `writer`, `counts` and `mapping` call it too, with 16, and `reader` and `mapping` with 32 for individuals, for the table of names, which has room for 32.
pub fn parse(line: &[u8], most: usize) -> Result<Roster, Refusal>
    requires { most ≤ 32 }
    ensures { result ≡ roster_of most line.now }
{
    let mut table = [0u8; 512];
    let mut count = 0;
    let mut at = 0;
    // No `for`: a label says itself where the next one begins.
    while at < line.len() {
        if !is_label(line[at]) || count == most {
            return Err(Fault::FaultyRoster.at(at));
        }
        let scanned = scan(line, at).map_err(|refusal| Fault::FaultyRoster.at(refusal.place))?;
        let next = scanned.next;
        if species(&table, count, scanned.name).is_some() {
            return Err(Fault::FaultyRoster.at(at));
        }
        enter(&mut table, count, scanned.name);
        count += 1;
        if next == line.len() {
            return Ok(Roster { count, table });
        }
        if line[next] != b' ' {
            return Err(Fault::FaultyRoster.at(next));
        }
        at = next + 1;
    }
    Err(Fault::FaultyRoster.at(line.len()))
}

// The roster line judged: how many names it has.
pub fn judge(line: &[u8]) -> Reply
    ensures { Judged line.now result }
{
    reply_to(parse(line, 16).map(|roster| roster.count))
}
