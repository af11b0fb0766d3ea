// Where the nodes of a tree text end, one after the other, and the count behind each.
#![tactic(auto)]

ghost use Rattle.std.specs.Prelude.{◌≡◌, ◌+◌, length, drop, Ok, None};
ghost use Rattle.std.specs.Result.{result_unwrap_or};
ghost use Rattle.tokens.specs.Says.{between, Valued, behind_valued};
ghost use Rattle.branches.specs.Ends.{is_lead, lead as Ends·lead, is_count, counted_as, ended_as, next_end};
ghost use Rattle.branches.specs.Work.{count_read};

use faults::Refusal;
use labels::{is_blank, is_digit, run, scan};
use tokens::behind::{behind, closing};
use tokens::{Figure, Figures, next_is};

// A node that ends: the place just behind its closing parenthesis or, for a leaf, its name; its count, if it has one;
// and the place behind its numbers, from which on the next node to end is looked for.
#[derive(Clone, Copy, Debug, PartialEq, Eq)]
pub struct Ended {
    pub place: usize,
    pub count: Option<usize>,
    pub next: usize,
}

// blanks, `(` and `,`, which stand between the end of a node and what ends the next
fn is_lead(b: u8) -> bool
    ensures { result ≡ is_lead b }
{
    is_blank(b) || matches!(b, b'(' | b',')
}

// The place behind such bytes, which begin at `at`.
fn lead(text: &[u8], at: usize) -> usize
    ensures { result ≡ at + Ends·lead (drop at text.now) }
{
    at + run(text, at, is_lead)
}

// Whether a number is written, and in digits alone.
fn is_count(text: &[u8], number: Figure) -> bool
    requires { Valued text.now number }
    ensures { result ≡ is_count (between text.now number) }
{
    number.from < number.to && text[number.from..number.to].iter().all(|b| is_digit(*b))
}

// The count among the numbers behind a node: a number of digits alone, and no second number.
fn count(text: &[u8], figures: Figures) -> Option<usize>
    requires { behind_valued text.now (Ok figures) }
    ensures { result ≡ count_read text.now figures }
{
    let support = figures.support;
    let second = support.from < support.to;
    if second || !is_count(text, figures.distance) {
        return None;
    }
    figures.distance.value.map(|amount| amount / 1000)
}

// The end of a node at `place`, with these numbers behind it.
fn end_at(text: &[u8], place: usize, figures: Figures) -> Ended
    requires { behind_valued text.now (Ok figures) }
    ensures { result ≡ counted_as (count_read text.now figures) place figures.next }
{
    Ended {
        place,
        count: count(text, figures),
        next: figures.next,
    }
}

// The next node to end, from `at` on, or the refusal of what stands there.
fn end_from(text: &[u8], at: usize) -> Result<Ended, Refusal>
    ensures { result_unwrap_or result (counted_as None (length text.now) (length text.now)) ≡ ended_as (length text.now) (next_end (drop at text.now) at) }
{
    let from = lead(text, at);
    if next_is(text, from, b')') {
        let place = from + 1;
        let figures = closing(text, place, None)?;
        return Ok(end_at(text, place, figures));
    }
    let label = scan(text, from)?;
    let figures = behind(text, label.next, None)?;
    Ok(end_at(text, label.next, figures))
}

// The next node to end, from `at` on; an end without a count, at the end of the text, where what stands there cannot be read.
pub fn next_end(text: &[u8], at: usize) -> Ended
    ensures { result ≡ ended_as (length text.now) (next_end (drop at text.now) at) }
{
    let unread = Ended {
        place: text.len(),
        count: None,
        next: text.len(),
    };
    end_from(text, at).unwrap_or(unread)
}
