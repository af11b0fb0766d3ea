// Looking at the text at a place: blanks, and a byte that may not stand there.
ghost use Rattle.std.specs.Prelude.{◌≡◌, ◌+◌, drop};
ghost use Rattle.tokens.specs.Says.{stray_at};
ghost use Rattle.tokens.specs.Tokens.{blanks as Tokens·blanks};

use crate::answer::Refusal;
use faults::Fault;
use labels::{is_blank, run};

// The place behind the blanks that begin at `at`.
pub fn blanks(text: &[u8], at: usize) -> usize
    ensures { result ≡ at + Tokens·blanks (drop at text.now) }
{
    at + run(text, at, is_blank)
}

// Nothing that may stand at `at` does: the text ends there, or the byte is not allowed.
pub fn stray(text: &[u8], at: usize) -> Refusal
    ensures { result ≡ stray_at (drop at text.now) at }
{
    if at < text.len() {
        Fault::StrayByte.at(at)
    } else {
        Fault::TextEnds.at(at)
    }
}
