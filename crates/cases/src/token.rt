// What stands at a place of a packed field.
// As text each byte stands for itself, `\hh` is a byte in hexadecimal, `\*N.` the byte before N times more.
// As numbers they are parted by spaces, `*N` is the number before N times more, `#N` the 32 before N times more.
ghost use Rattle.std.specs.Prelude.{◌≤◌, ◌<◌, length};

use crate::fields::{behind, decimal};

// A number; or so many numbers more, each the one that stands `back` places before it.
#[derive(Clone, Copy)]
pub enum Token {
    Number(usize),
    Again { back: usize, times: usize },
}

// A token, and the place behind it.
#[derive(Clone, Copy)]
pub struct Placed {
    pub token: Token,
    pub next: usize,
}

// The hexadecimal digit at i; where none stands there, 0.
fn digit_at(field: &[u8], i: usize) -> usize
    ensures { result < 16 }
{
    match field.get(i) {
        Some(b @ b'0'..=b'9') => (b - b'0') as usize,
        Some(b @ b'a'..=b'f') => (b - b'a' + 10) as usize,
        _ => 0,
    }
}

// What stands behind a backslash: a repeat, or a byte in hexadecimal.
fn escaped(field: &[u8], at: usize) -> Placed
    requires { at ≤ length field.now }
    ensures { (at ≤ result.next) × (result.next ≤ length field.now) }
{
    let second = behind(field, at);
    if field.get(at) == Some(&b'*') {
        let times = decimal(field, second);
        return Placed {
            token: Token::Again {
                back: 1,
                times: times.value,
            },
            next: behind(field, times.next),
        };
    }
    Placed {
        token: Token::Number(16 * digit_at(field, at) + digit_at(field, second)),
        next: behind(field, second),
    }
}

// As numbers: one number, one repeat, or one byte between numbers, which is a repeat of nothing. No buffer holds more records than the bound.
fn of_numbers(field: &[u8], at: usize) -> Placed
    requires { at < length field.now }
    ensures { (at < result.next) × (result.next ≤ length field.now) }
{
    let number = decimal(field, at);
    if at < number.next {
        return Placed {
            token: Token::Number(number.value),
            next: number.next,
        };
    }
    let times = decimal(field, at + 1);
    let (back, times, next) = match field[at] {
        b'*' => (1, times.value, times.next),
        b'#' => (32, 32 * times.value.min(65536), times.next),
        _ => (1, 0, at + 1),
    };
    Placed {
        token: Token::Again { back, times },
        next,
    }
}

// As text, one byte or one repeat; or as numbers.
pub(crate) fn token_at(field: &[u8], at: usize, text: bool) -> Placed
    requires { at < length field.now }
    ensures { (at < result.next) × (result.next ≤ length field.now) }
{
    if !text {
        return of_numbers(field, at);
    }
    match field[at] {
        b'\\' => escaped(field, at + 1),
        b => Placed {
            token: Token::Number(b as usize),
            next: at + 1,
        },
    }
}
