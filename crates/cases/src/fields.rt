// A case taken apart: the fields behind its letter, parted by `|`, and the decimal numbers in them.
ghost use Rattle.std.specs.Prelude.{◌≡◌, ◌+◌, ◌≤◌, ◌<◌, min, length};

use crate::room::MOST;

// The place behind `at`, and the end where that is the end. `vectors` calls it, within its input.
pub fn behind(s: &[u8], at: usize) -> usize
    requires { at ≤ length s.now }
    ensures { result ≡ min (at + 1) (length s.now) }
{
    s.len().min(at + 1)
}

// Where the first b from `at` on stands, or the end where there is none. `vectors` calls it, within its input.
pub fn end_of(s: &[u8], at: usize, b: u8) -> usize
    requires { at ≤ length s.now }
    ensures { (at ≤ result) × (result ≤ length s.now) }
{
    s[at..]
        .iter()
        .position(|x| *x == b)
        .map_or(s.len(), |i| at + i)
}

// The k-th field of a case, counted from 0, and nothing where it has fewer.
pub fn field(case: &[u8], k: usize) -> &[u8] {
    case[behind(case, 0)..]
        .split(|b| *b == b'|')
        .nth(k)
        .unwrap_or(&[])
}

// A number, and the place behind its digits.
#[derive(Clone, Copy)]
pub struct Numeral {
    pub value: usize,
    pub next: usize,
}

// The decimal number at `at`, and the largest number where it would pass that; 0 where no digit stands there. `vectors` calls it, within a field.
pub fn decimal(s: &[u8], at: usize) -> Numeral
    requires { at ≤ length s.now }
    ensures { (at ≤ result.next) × (result.next ≤ length s.now) }
{
    let mut value: usize = 0;
    for (i, b) in s[at..].iter().enumerate() {
        if !b.is_ascii_digit() {
            return Numeral {
                value,
                next: at + i,
            };
        }
        value = value.saturating_mul(10).saturating_add((b - b'0') as usize);
    }
    Numeral {
        value,
        next: s.len(),
    }
}

// The k-th field of a case, which is one number.
pub fn number(case: &[u8], k: usize) -> usize {
    decimal(field(case, k), 0).value
}

// How many bytes, or entries of a table, the k-th field of a case says that the call is lent.
pub fn lent_size(case: &[u8], k: usize) -> usize
    ensures { result ≤ MOST }
{
    number(case, k).min(MOST)
}
