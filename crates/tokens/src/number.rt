// A number: digits, or digits, a point and digits.
ghost use Rattle.std.specs.Prelude.{◌≡◌, ◌+◌, ◌≤◌, length, drop};
ghost use Rattle.tokens.specs.Says.{number_says, number_valued};
ghost use Rattle.tokens.specs.Tokens.{numeral, number as Tokens·number};

use crate::answer::{Figure, Refusal};
use crate::cursor::stray;
use crate::value::thousandths;
use faults::Fault;
use labels::{is_digit, next_is, run};

// The `bytes` bytes from `from` on are a number, unless they are too many: a number has at most 12, and the thirteenth is refused.
fn limited(text: &[u8], from: usize, bytes: usize) -> Result<Figure, Refusal>
    requires { from + bytes ≤ length text.now }
    ensures result_value { number_says text.now result ≡ numeral bytes (drop from text.now) from }
    ensures number_valued { number_valued text.now result }
{
    if bytes > 12 {
        return Err(Fault::LongWord.at(from + 12));
    }
    let to = from + bytes;
    Ok(Figure {
        from,
        to,
        value: thousandths(&text[from..to]),
    })
}

// The number that begins at `at`, and what it is worth.
pub fn number(text: &[u8], at: usize) -> Result<Figure, Refusal>
    ensures result_value { number_says text.now result ≡ Tokens·number (drop at text.now) at }
    ensures number_valued { number_valued text.now result }
{
    let whole = run(text, at, is_digit);
    if whole == 0 {
        return Err(stray(text, at));
    }
    let point = at + whole;
    if !next_is(text, point, b'.') {
        return limited(text, at, whole);
    }
    let part = run(text, point + 1, is_digit);
    if part == 0 && whole < 12 {
        return Err(stray(text, point + 1));
    }
    // where no digit follows the point, it is itself a byte too many
    limited(text, at, whole + 1 + part)
}
