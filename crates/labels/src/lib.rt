// The one scanner of labels, bare and quoted: leaf names, inner names and roster names.
#![tactic(auto)]

ghost use Rattle.std.specs.Prelude.{◌≡◌, true, false, ℕ, Bool, ◌+◌, ◌≤◌, ◌<◌, length, drop};
ghost use Rattle.labels.specs.Bytes.{is_digit, is_name, is_bare, is_printable, is_label, is_blank, run, next_is, next_label};
ghost use Rattle.labels.specs.Spelling.{unwritten as Spelling·unwritten};
ghost use Rattle.labels.specs.Labels.{bare_letters, padded as Labels·padded, scanned_at};
ghost use Rattle.labels.specs.Work.{width_of, closed_at};

use faults::{Fault, Refusal};

// A label that ends just before `next`, with the bytes that it stands for, zeros behind them.
#[derive(Clone, Copy, Debug, PartialEq, Eq)]
pub struct Scanned {
    pub next: usize,
    pub name: [u8; 16],
}

pub fn is_digit(b: u8) -> bool
    ensures { result ≡ is_digit b }
{
    b.is_ascii_digit()
}

// ASCII letters and digits
pub fn is_name_byte(b: u8) -> bool
    ensures { result ≡ is_name b }
{
    b.is_ascii_alphanumeric()
}

// letters, digits and underscores
pub fn is_bare(b: u8) -> bool
    ensures { result ≡ is_bare b }
{
    is_name_byte(b) || b == b'_'
}

// a byte with which a label begins
pub fn is_label(b: u8) -> bool
    ensures { result ≡ is_label b }
{
    is_bare(b) || b == b'\''
}

fn is_printable(b: u8) -> bool
    ensures { result ≡ is_printable b }
{
    matches!(b, b' '..=b'~')
}

// space, tab, line feed, carriage return
pub fn is_blank(b: u8) -> bool
    ensures { result ≡ is_blank b }
{
    matches!(b, b' ' | b'\t' | b'\n' | b'\r')
}

// How many bytes from `at` on pass the test, up to the first that does not.
pub fn run<F: Fn(u8) -> bool>(text: &[u8], at: usize, test: F) -> usize
    requires { F.IsAlwaysCallable test }
    ensures { (passes : ℕ → Bool) → ((b : ℕ) (r : Bool) → F.post test b r → r ≡ passes b) → result ≡ run passes (drop at text.now) }
{
    let Some(rest) = text.get(at..) else {
        return 0;
    };
    rest.iter().take_while(|b| test(**b)).count()
}

// Whether the byte at `at` is `b`.
pub fn next_is(text: &[u8], at: usize, b: u8) -> bool
    ensures { result ≡ next_is b (drop at text.now) }
{
    text.get(at) == Some(&b)
}

// Whether a label begins at `at`.
pub fn next_label(text: &[u8], at: usize) -> bool
    ensures { result ≡ next_label (drop at text.now) }
{
    text.get(at).is_some_and(|b| is_label(*b))
}

// What a byte of a bare label stands for: an underscore for a blank.
fn unwritten(b: u8) -> u8
    ensures { result ≡ Spelling·unwritten b }
{
    if b == b'_' { b' ' } else { b }
}

// What the n bytes from `at` on stand for, zeros behind it.
fn padded(text: &[u8], at: usize, n: usize) -> [u8; 16]
    requires { (n ≤ 15) × (n ≡ run is_bare (drop at text.now)) }
    ensures { result ≡ Labels·padded (bare_letters (drop at text.now)) }
{
    let mut name = [0u8; 16];
    for i in 0..n {
        name[i] = unwritten(text[at + i]);
    }
    name
}

// The bare label that begins at `at`; empty where no byte of one stands there.
fn bare(text: &[u8], at: usize) -> Result<Scanned, Refusal>
    requires { next_is 39 (drop at text.now) ≡ false }
    ensures { result ≡ scanned_at text.now at }
{
    let n = run(text, at, is_bare);
    if n > 15 {
        return Err(Fault::LongWord.at(at + 15));
    }
    Ok(Scanned {
        next: at + n,
        name: padded(text, at, n),
    })
}

// The quoted label of n bytes whose closing quote stands at `at`: it may not be empty.
fn closed(name: [u8; 16], n: usize, at: usize) -> Result<Scanned, Refusal>
    requires { at < usize.MAX }
    ensures { result ≡ closed_at n name at }
{
    if n == 0 {
        return Err(Fault::StrayByte.at(at));
    }
    Ok(Scanned { next: at + 1, name })
}

// How many bytes the letter at `at` takes, within quotes; none where none stands there. A quote that no quote follows is none.
fn letter_width(text: &[u8], at: usize) -> Option<usize>
    requires { at < length text.now }
    ensures { result ≡ width_of (drop at text.now) }
{
    let b = text[at];
    if b == b'\'' {
        next_is(text, at + 1, b'\'').then_some(2)
    } else {
        is_printable(b).then_some(1)
    }
}

// The quoted label whose first quote stands at `at`.
fn quoted(text: &[u8], at: usize) -> Result<Scanned, Refusal>
    requires { next_is 39 (drop at text.now) ≡ true }
    ensures { result ≡ scanned_at text.now at }
{
    let mut name = [0u8; 16];
    let mut n = 0;
    let mut i = at + 1;
    // no `for`: a letter takes one byte or two
    while i < text.len() {
        let b = text[i];
        let Some(width) = letter_width(text, i) else {
            if b == b'\'' {
                return closed(name, n, i);
            }
            return Err(Fault::StrayByte.at(i));
        };
        if n == 15 {
            return Err(Fault::LongWord.at(i));
        }
        name[n] = b;
        n += 1;
        i += width;
    }
    Err(Fault::TextEnds.at(i))
}

// The label that begins at `at`.
pub fn scan(text: &[u8], at: usize) -> Result<Scanned, Refusal>
    ensures { result ≡ scanned_at text.now at }
{
    if next_is(text, at, b'\'') {
        quoted(text, at)
    } else {
        bare(text, at)
    }
}
