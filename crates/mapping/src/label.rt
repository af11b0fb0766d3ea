// The label with which a part of the mapping begins.
ghost use Rattle.std.specs.Prelude.{◌≡◌, ◌≤◌, length};
ghost use Rattle.mapping.specs.Work.{LabelRead, refusal_of};

use faults::{Fault, Refusal};
use labels::{Scanned, next_label, scan};

// The fault of the mapping that the own fault of a label at `at` is. One of over fifteen bytes is at fault at its first.
fn at_fault(refusal: Refusal, at: usize) -> Refusal
    ensures { result ≡ refusal_of at refusal }
{
    match refusal.fault {
        Fault::LongWord => Fault::FaultyMapping.at(at),
        _ => Fault::FaultyMapping.at(refusal.place),
    }
}

// The label that has to begin at `at`; `lines` calls it.
pub(crate) fn label_at(text: &[u8], at: usize) -> Result<Scanned, Refusal>
    requires { at ≤ length text.now }
    ensures { LabelRead text.now at result }
{
    if !next_label(text, at) {
        return Err(Fault::FaultyMapping.at(at));
    }
    scan(text, at).map_err(|refusal| at_fault(refusal, at))
}
