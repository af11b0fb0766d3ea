// What a search is given beside the gene trees, and what it answers: the allowed clusters, and the tree that is found or a refusal.
#![tactic(auto)]

pub mod allowing;

ghost use Rattle.std.specs.Prelude.{◌≡◌};
ghost use Rattle.terms.specs.Answers.{found_to};

use faults::Refusal;

// What the search answers, a type of the C interface: number and place, the score, and the record of its tree.
#[repr(C)]
#[derive(Clone, Copy)]
pub struct Found {
    pub number: u32,
    pub place: usize,
    pub score: usize,
    pub numbers: [u16; 32],
}

// The tree that a search finds: its score and its record.
#[derive(Clone, Copy)]
pub struct Solution {
    pub score: usize,
    pub numbers: [u16; 32],
}

impl From<Result<Solution, Refusal>> for Found {
    ghost from_gives = { λ outcome found. found ≡ found_to outcome };

    // "A refused call returns score 0 .., an all-zero record".
    fn from(outcome: Result<Solution, Refusal>) -> Found {
        match outcome {
            Ok(solution) => {
                let numbers = solution.numbers;
                Found {
                    number: 0,
                    place: 0,
                    score: solution.score,
                    numbers,
                }
            }
            Err(refusal) => {
                let numbers = [0u16; 32];
                Found {
                    number: refusal.fault.number(),
                    place: refusal.place,
                    score: 0,
                    numbers,
                }
            }
        }
    }
}
