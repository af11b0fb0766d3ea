// Packed fields: bytes and numbers of which some are put again.
ghost use Rattle.std.specs.Prelude.{◌≡◌, ◌≤◌, ◌<◌, length, take};

use crate::fields::field;
use crate::room::NUMBERS;
use crate::token::{Token, token_at};
use trees::Record;

// Puts so many numbers more, each the one that stands `back` places before it, as far as there is room, and answers how many there are then.
fn again(out: &mut [u16], count: usize, back: usize, times: usize) -> usize
    requires { count ≤ length out.old }
    ensures { (result ≤ length out.old) × (length out.new ≡ length out.old) }
{
    if count < back {
        return count;
    }
    let end = count + times.min(out.len() - count);
    for i in count..end {
        out[i] = out[i - back];
    }
    end
}

// Puts what the token says behind the first count numbers, as far as there is room, and answers how many there are then.
fn put(out: &mut [u16], count: usize, token: Token) -> usize
    requires { count ≤ length out.old }
    ensures { (result ≤ length out.old) × (length out.new ≡ length out.old) }
{
    match token {
        Token::Again { back, times } => again(out, count, back, times),
        Token::Number(value) if count < out.len() => {
            out[count] = (value % 65536) as u16;
            count + 1
        }
        Token::Number(_) => count,
    }
}

// Puts the numbers of the k-th field of a case, or the bytes where it is text, at the start of out, and answers that part.
pub fn numbers<'a>(case: &[u8], k: usize, text: bool, out: &'a mut [u16]) -> &'a [u16]
    ensures { length result.now ≤ length out.old }
{
    let field = field(case, k);
    let mut at = 0;
    let mut count = 0;
    // a token says where the next one begins
    while at < field.len() {
        let placed = token_at(field, at, text);
        count = put(out, count, placed.token);
        at = placed.next;
    }
    &out[..count]
}

// The k-th field of a case, which is a tree's record.
pub fn tree(case: &[u8], k: usize) -> Record {
    let mut entries = [0u16; 32];
    numbers(case, k, false, &mut entries);
    Record { numbers: entries }
}

// The same as bytes.
pub fn bytes<'a>(case: &[u8], k: usize, text: bool, out: &'a mut [u8]) -> &'a [u8]
    ensures { length result.now ≤ length out.old }
{
    let mut space = [9u16; NUMBERS];
    let numbers = numbers(case, k, text, &mut space);
    let n = numbers.len().min(out.len());
    for (b, x) in out.iter_mut().zip(numbers) {
        *b = (x % 256) as u8;
    }
    &out[..n]
}
