// The fingerprint of what a call was lent, after it, by which it is compared whole.
ghost use Rattle.std.specs.Prelude.{◌<◌};

use std::io;
use std::io::Write;

// The fingerprint h with one more number.
fn mixed(h: u64, x: u64) -> u64
    requires { h < 1000003 }
    ensures { result < 1000003 }
{
    (h * 31 + x % 1000003 + 1) % 1000003
}

pub(crate) fn fingerprint<T: Copy + Into<u64>>(s: &[T]) -> u64 {
    let mut h = 7;
    for x in s {
        h = mixed(h, (*x).into());
    }
    h
}

// The fingerprint, with a space before it.
pub fn show<W: Write>(to: &mut W, s: &[u8]) -> io::Result<()> {
    write!(to, " {}", fingerprint(s))
}
