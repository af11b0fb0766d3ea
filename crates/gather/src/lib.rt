// The gene trees, read one after the other.
#![tactic(auto)]

ghost use Rattle.std.specs.Prelude.{◌≡◌, ◌+◌, ◌*◌, ◌≤◌, length};
ghost use Rattle.std.proofs.lemmas.List.Edits.{sets};
ghost use Rattle.gather.specs.GeneTrees.{begins_at};
ghost use Rattle.gather.specs.Work.{Gathers};

use faults::{Fault, Refusal};
use reader::{Kind, draw, read};
use tokens::blanks;

// Puts a record behind the first `count`.
fn put(genes: &mut [u16], count: usize, numbers: [u16; 32])
    requires { 32 * count + 32 ≤ length genes.old }
    ensures { (length numbers ≡ 32) × (genes.new ≡ sets genes.old (32 * count) numbers) }
{
    let at = 32 * count;
    genes[at..at + 32].copy_from_slice(&numbers);
}

// Reads trees until only blanks remain, puts their records into `genes`, and answers how many there are. `outcomes` calls it, with numbers for 512 records.
pub fn gather(line: &[u8], trees: &[u8], genes: &mut [u16]) -> Result<usize, Refusal>
    requires { length genes.old ≡ 16384 }
    ensures { Gathers line.now trees.now genes.old result genes.new }
{
    let mut count: usize = 0;
    let mut at = blanks(trees, 0);
    // no `for`: a tree says where the next one begins
    while at < trees.len() {
        if count == 512 {
            return Err(Fault::TooLarge.at(at));
        }
        // a tree at fault is refused by its own fault, at its own place
        let drawn = match draw(Kind::Gene, None, line, trees, at) {
            Ok(drawn) => drawn,
            Err(refusal) => return Err(refusal.fault.at(refusal.place)),
        };
        put(genes, count, drawn.numbers);
        count += 1;
        at = blanks(trees, drawn.next);
    }
    Ok(count)
}

// Where the tree of an index begins, its first byte that is no blank: the trees before it are read again.
pub fn place(line: &[u8], trees: &[u8], index: usize) -> usize
    ensures { result ≡ begins_at index line.now trees.now 0 }
{
    let mut at = blanks(trees, 0);
    for _i in 0..index {
        let passed = read(Kind::Gene, None, line, trees, at);
        at = blanks(trees, passed.next);
    }
    at
}
