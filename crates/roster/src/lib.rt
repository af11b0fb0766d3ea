// The roster: the roster line and its faults, from a name to its species and back, and the reply of a call.
#![tactic(auto)]

mod line;
mod table;

ghost use Rattle.std.specs.Prelude.{◌≡◌};
ghost use Rattle.roster.specs.Judged.{done, refused_by, reply_to};

use faults::Refusal;
pub use line::{judge, parse};
pub use table::{name_len, species};

// What a call answers: 01's number and place, and a value.
#[repr(C)]
#[derive(Clone, Copy, Debug, PartialEq, Eq)]
pub struct Reply {
    pub number: u32,
    pub place: usize,
    pub value: usize,
}

// A good roster: how many names it has, and their table of sixteen bytes each.
// One row of bytes, no `[[u8; 16]; 32]`: the promises of `nodes`, `texts` and `writer` are over its bytes (`Table.slots`, `texts: Work.name_in`).
#[derive(Clone, Copy, Debug, PartialEq, Eq)]
pub struct Roster {
    pub count: usize,
    pub table: [u8; 512],
}

// The reply of a call that is done.
pub fn done(value: usize) -> Reply
    ensures { result ≡ done value }
{
    Reply {
        number: 0,
        place: 0,
        value,
    }
}

impl From<Refusal> for Reply {
    ghost from_gives = { λ e r. r ≡ refused_by e };

    // The reply of a call that refuses: "0 for any other value".
    fn from(refusal: Refusal) -> Reply {
        Reply {
            number: refusal.fault.number(),
            place: refusal.place,
            value: 0,
        }
    }
}

// The reply of a call: its value, or its refusal.
pub fn reply_to(outcome: Result<usize, Refusal>) -> Reply
    ensures { result ≡ reply_to outcome }
{
    match outcome {
        Ok(value) => done(value),
        Err(refusal) => Reply::from(refusal),
    }
}
