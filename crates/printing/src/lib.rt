// The output: fixed words and decimal numbers, one behind the other.
#![tactic(auto)]

ghost use Rattle.std.specs.Prelude.{◌≡◌, ◌++◌, ◌+◌, ◌≤◌, length};
ghost use Rattle.printing.specs.Words.{decimal as Words·decimal};
ghost use Rattle.printing.specs.Texts.{report_bytes, report_of, counts_text, refusal_text, refused};
ghost use Rattle.printing.specs.Work.{Put};

use faults::Refusal;

// The output: how many bytes it has, and the bytes with zeros behind them, in fixed memory, for there is no heap.
#[derive(Clone, Copy)]
pub struct Report {
    pub len: usize,
    pub text: [u8; 1024],
}

// Puts the word behind the first `at` bytes, and answers where it ends. `outcomes` calls it too, with a line feed that there is room for.
pub fn word(out: &mut [u8], at: usize, word: &[u8]) -> usize
    requires { at + length word.now ≤ length out.old }
    ensures { Put out.old at word.now result out.new }
{
    let end = at + word.len();
    out[at..end].copy_from_slice(word);
    end
}

// Puts a number in decimal digits behind the first `at` bytes, and answers where it ends. `texts` calls it too, where there is room for the digits.
// Digit by digit, and not by the kit's `itoa`, so that what each of them is stands here.
// Not by `write!`: std says what it wrote where it answers `Ok`, and nowhere that it does so where there is room (`OnOk` in `fmt::Write`).
pub fn decimal(out: &mut [u8], at: usize, x: usize) -> usize
    requires { at + length (Words·decimal x) ≤ length out.old }
    ensures { Put out.old at (Words·decimal x) result out.new }
{
    if x < 10 {
        out[at] = 48 + x as u8;
        return at + 1;
    }
    let end = decimal(out, at, x / 10);
    out[end] = 48 + (x % 10) as u8;
    end + 1
}

// Puts a word and a number behind it, which has twenty digits at the most; answers where they end.
fn labelled(out: &mut [u8], at: usize, label: &[u8], x: usize) -> usize
    requires { at + length label.now + 20 ≤ length out.old }
    ensures { Put out.old at (label.now ++ Words·decimal x) result out.new }
{
    let at = word(out, at, label);
    decimal(out, at, x)
}

// `refused N at P` and a line feed.
pub fn refusal(number: u32, place: usize) -> Report
    ensures { result ≡ report_of (refusal_text number place) }
{
    let mut text = [0u8; 1024];
    let at = labelled(&mut text, 0, b"refused ", number as usize);
    let at = labelled(&mut text, at, b" at ", place);
    let len = word(&mut text, at, b"\n");
    Report { len, text }
}

impl From<Refusal> for Report {
    ghost from_gives = { λ e r. r ≡ refused e };

    // The line of a refusal.
    fn from(e: Refusal) -> Report {
        refusal(e.fault.number(), e.place)
    }
}

// The lines of species and gene trees read, of the score and of the ties; answers where they end. `outcomes` calls it, with the bytes of a report.
pub fn counts(out: &mut [u8], n: usize, count: usize, score: usize, ties: u64) -> usize
    requires { length out.old ≡ report_bytes }
    ensures { Put out.old 0 (counts_text n count score ties) result out.new }
{
    let at = labelled(out, 0, b"taxa ", n);
    let at = labelled(out, at, b" genes ", count);
    let at = labelled(out, at, b"\nscore ", score);
    let at = labelled(out, at, b"\nties ", ties as usize);
    word(out, at, b"\n")
}
