// Answers, written to any writer.
ghost use Rattle.std.specs.Prelude.{◌≡◌, ◌≤◌, ◌∷◌, [], length, take, OnOk};
ghost use Rattle.std.specs.Fmt.{decimal};
ghost use Rattle.std.specs.Io.KnownBytes.{Appends};

use std::io;
use std::io::Write;

pub fn text<W: Write>(to: &mut W, s: &[u8]) -> io::Result<()>
    ensures { OnOk result (Appends (W.contents to.old) (W.contents to.new) s.now) }
{
    to.write_all(s)
}

pub fn byte<W: Write>(to: &mut W, b: u8) -> io::Result<()>
    ensures { OnOk result (Appends (W.contents to.old) (W.contents to.new) (b ∷ [])) }
{
    text(to, &[b])
}

// The first count bytes of s.
pub fn start_of<W: Write>(to: &mut W, s: &[u8], count: usize) -> io::Result<()>
    ensures { OnOk result (Appends (W.contents to.old) (W.contents to.new) (take count s.now)) }
{
    text(to, &s[..count.min(s.len())])
}

pub fn number<W: Write>(to: &mut W, x: usize) -> io::Result<()>
    ensures { OnOk result (Appends (W.contents to.old) (W.contents to.new) (decimal x)) }
{
    write!(to, "{x}")
}

// Number, place and value, parted by spaces.
pub fn answer<W: Write>(to: &mut W, fault: u32, place: usize, value: usize) -> io::Result<()> {
    write!(to, "{fault} {place} {value}")
}

// How many numbers there are up to the last that is not 0.
fn filled(numbers: &[u16]) -> usize
    ensures { result ≤ length numbers.now }
{
    numbers.iter().rposition(|x| *x != 0).map_or(0, |i| i + 1)
}

// A record's numbers up to its last that is not 0, with a space before each.
pub fn record_start<W: Write>(to: &mut W, numbers: &[u16]) -> io::Result<()> {
    for x in &numbers[..filled(numbers)] {
        write!(to, " {x}")?;
    }
    Ok(())
}
