// What stands behind a node: an inner node's name, and the numbers `:d`, `:d:b` or `::b`.
ghost use Rattle.std.specs.Prelude.{◌≡◌, List, ℕ, drop, None};
ghost use Rattle.labels.specs.Bytes.{next_is as Bytes·next_is};
ghost use Rattle.tokens.specs.Answers.{and_then};
ghost use Rattle.tokens.specs.Answers.Answer.{parsed};
ghost use Rattle.tokens.specs.Says.{between, Valued, behind_says, behind_valued, name_says, inner_word, fine_figure, judged_as};
ghost use Rattle.tokens.specs.Supports.{is_given, supported, below as Supports·below};
ghost use Rattle.tokens.specs.Tokens.{skip, number as Tokens·number, number_behind, second_number, numbers as Tokens·numbers, inner_name as Tokens·inner_name};

use crate::answer::{Figure, Figures, Refusal};
use crate::cursor::blanks;
use crate::number::number;
use faults::Fault;
use labels::{next_is, next_label, scan};

// No bytes.
fn nothing(at: usize) -> Figure
    ensures { result ≡ record { from = at; to = at; value = None } }
{
    Figure {
        from: at,
        to: at,
        value: None,
    }
}

// The support, behind the colon that ends at `at`; the distance stood before it.
fn support(text: &[u8], at: usize, distance: Figure) -> Result<Figures, Refusal>
    requires { Valued text.now distance }
    ensures by_index { (w : List ℕ) → behind_says text.now w result
        ≡ and_then (number_behind (drop at text.now) at) (λ b s p. parsed (record { name = w; distance = between text.now distance; support = b }) s p) }
    ensures behind_valued { behind_valued text.now result }
{
    let support = number(text, blanks(text, at))?;
    Ok(Figures {
        distance,
        support,
        next: support.to,
    })
}

// The distance, which begins at `at`, and the support if one follows.
fn distance(text: &[u8], at: usize) -> Result<Figures, Refusal>
    ensures by_index { (w : List ℕ) → behind_says text.now w result ≡ and_then (Tokens·number (drop at text.now) at) (λ d s p. second_number (Bytes·next_is 58 (skip s)) w d s p) }
    ensures behind_valued { behind_valued text.now result }
{
    let distance = number(text, at)?;
    let end = distance.to;
    let colon = blanks(text, end);
    if next_is(text, colon, b':') {
        return support(text, colon + 1, distance);
    }
    Ok(Figures {
        distance,
        support: nothing(end),
        next: end,
    })
}

// The numbers behind a node that ends at `at`, not yet judged.
fn numbers(text: &[u8], at: usize) -> Result<Figures, Refusal>
    ensures by_index { (w : List ℕ) → behind_says text.now w result ≡ Tokens·numbers w (drop at text.now) at }
    ensures behind_valued { behind_valued text.now result }
{
    let colon = blanks(text, at);
    if !next_is(text, colon, b':') {
        return Ok(Figures {
            distance: nothing(at),
            support: nothing(at),
            next: at,
        });
    }
    let second = blanks(text, colon + 1);
    if next_is(text, second, b':') {
        return support(text, second + 1, nothing(second));
    }
    distance(text, second)
}

// A support that has more than three decimals, so that no threshold compares with it: it has bytes and no value.
fn too_fine(support: Figure) -> bool
    ensures { result ≡ fine_figure support }
{
    support.value.is_none() && support.from < support.to
}

// Where a threshold is given, a support that is too fine is refused at its first byte.
fn judged(figures: Figures, threshold: Option<usize>) -> Result<Figures, Refusal>
    ensures { result ≡ judged_as threshold figures }
{
    let support = figures.support;
    if threshold.is_some() && too_fine(support) {
        return Err(Fault::TooFine.at(support.from));
    }
    Ok(figures)
}

// Whether a support lies strictly below a threshold; none does where it has no value, or no threshold is given.
pub fn below(threshold: Option<usize>, support: Figure) -> bool
    ensures { result ≡ Supports·below threshold support.value }
{
    match (threshold, support.value) {
        (Some(least), Some(worth)) => worth < least,
        _ => false,
    }
}

// The numbers behind a node that ends at `at`, its support judged.
pub fn behind(text: &[u8], at: usize, threshold: Option<usize>) -> Result<Figures, Refusal>
    ensures by_index { (w : List ℕ) → behind_says text.now w result ≡ supported (is_given threshold) w (drop at text.now) at }
    ensures behind_valued { behind_valued text.now result }
{
    let figures = numbers(text, at)?;
    judged(figures, threshold)
}

// The optional name behind the closing parenthesis of a node: where it ends.
fn inner_name(text: &[u8], at: usize) -> Result<usize, Refusal>
    ensures { name_says text.now (inner_word (drop at text.now)) result ≡ Tokens·inner_name (drop at text.now) at }
{
    let begun = blanks(text, at);
    if !next_label(text, begun) {
        return Ok(at);
    }
    // a label at fault is refused by its own fault, at its own place
    match scan(text, begun) {
        Ok(scanned) => Ok(scanned.next),
        Err(refusal) => Err(refusal.fault.at(refusal.place)),
    }
}

// What stands behind a closing parenthesis: an optional name, and numbers.
pub fn closing(text: &[u8], at: usize, threshold: Option<usize>) -> Result<Figures, Refusal>
    ensures result_value { behind_says text.now (inner_word (drop at text.now)) result ≡ and_then (Tokens·inner_name (drop at text.now) at) (λ w s p. supported (is_given threshold) w s p) }
    ensures behind_valued { behind_valued text.now result }
{
    let next = inner_name(text, at)?;
    behind(text, next, threshold)
}
