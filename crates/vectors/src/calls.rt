// The call of a case, by its letter.
use crate::genes::Genes;
use crate::{
    checking, counting, judging, marking, reading, reporting, scoring, searching, sheeting, tying,
    visiting, weighing, writing,
};
use cases::fields::number;
use cases::packed::{bytes, numbers};
use cases::room::{MOST, NUMBERS};
use reader::Kind;
use showing::show;
use std::io;
use std::io::Write;
use weights::Rooting;

// Runs a case whose first field is a text.
fn run_with_text<W: Write>(to: &mut W, case: &[u8], letter: u8) -> io::Result<()> {
    let mut space = [238; MOST];
    let text = bytes(case, 0, true, &mut space);
    match letter {
        b'J' => judging::run(to, text),
        b'R' => reading::run(to, Kind::Species, None, case, text),
        b'G' => reading::run(to, Kind::Gene, None, case, text),
        b'T' => reading::run(to, Kind::Gene, Some(number(case, 3)), case, text),
        b'W' => writing::run(to, case, text),
        b'C' => checking::run(to, case, text),
        b'O' => counting::run(to, case, text),
        _ => reporting::run(to, text),
    }
}

// Runs a case whose second field is gene trees; the letter is a capital where they have a root.
fn run_with_genes<W: Write>(to: &mut W, case: &[u8], letter: u8) -> io::Result<()> {
    let mut space = [9; NUMBERS];
    let genes = Genes {
        rooting: if letter.is_ascii_uppercase() {
            Rooting::Rooted
        } else {
            Rooting::Unrooted
        },
        species: number(case, 0),
        records: numbers(case, 1, false, &mut space),
        count: number(case, 2),
    };
    match letter.to_ascii_uppercase() {
        b'K' => weighing::run(to, case, genes),
        b'S' => scoring::run(to, case, genes),
        b'M' => marking::run(to, case, genes),
        b'F' => searching::run(to, case, genes),
        b'E' => tying::run(to, case, genes),
        b'H' => sheeting::run(to, case, genes),
        _ => visiting::run(to, case, genes),
    }
}

// Runs a case, and prints its answer.
pub fn run<W: Write>(to: &mut W, case: &[u8]) -> io::Result<()> {
    match case.first().copied() {
        Some(letter @ (b'J' | b'R' | b'G' | b'T' | b'W' | b'C' | b'O' | b'P')) => {
            run_with_text(to, case, letter)
        }
        Some(letter @ (b'K' | b'S' | b'M' | b'F' | b'E' | b'H' | b'L')) => {
            run_with_genes(to, case, letter)
        }
        Some(letter @ (b'k' | b's' | b'm' | b'f' | b'e' | b'h' | b'l')) => {
            run_with_genes(to, case, letter)
        }
        _ => show::text(to, b"no such call\n"),
    }
}
