// The public call for gene trees on individuals: a tree's text read to its wide record.
ghost use Rattle.reader.specs.WidePromise.{ReadsWide};

use crate::tree::answered;
use crate::{Kind, Limits};
use sorting::wide::record_of;
use trees::WideRecord;

// What reading a tree on individuals answers, as the promise `ReadsWide` has it: number and place, the offset just after the tree's `;`, and the tree's wide record.
#[derive(Clone, Copy)]
pub struct WideReading {
    pub number: u32,
    pub place: usize,
    pub next: usize,
    pub numbers: [u32; 64],
}

// The gene tree that begins at `start`, over the names of the individuals.
// Beside `read` it keeps its own last step: the records differ in type and in length, and one function over both would take two closures.
pub fn read_stand(individuals: &[u8], text: &[u8], start: usize) -> WideReading
    ensures { ReadsWide individuals.now text.now start result }
{
    let mut found = [0u32; 64];
    let limits = Limits { most: 32, room: 31 };
    let kind = Kind::Gene;
    match answered(limits, kind, None, individuals, text, start, &mut found) {
        Ok(tree) => {
            let WideRecord { numbers } = record_of(&found, tree.next.stored);
            WideReading {
                number: 0,
                place: 0,
                next: tree.next.at,
                numbers,
            }
        }
        Err(refusal) => WideReading {
            number: refusal.fault.number(),
            place: refusal.place,
            next: start,
            numbers: [0; 64],
        },
    }
}
