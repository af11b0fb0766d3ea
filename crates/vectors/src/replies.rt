// Replies of calls, written to any writer.
use roster::Reply;
use showing::{lent, show};
use std::io;
use std::io::Write;

// A reply that is the whole answer.
pub fn line<W: Write>(to: &mut W, r: Reply) -> io::Result<()> {
    show::answer(to, r.number, r.place, r.value)?;
    show::byte(to, b'\n')
}

// A reply, and the fingerprint of the bytes that were lent.
pub fn with_lent<W: Write>(to: &mut W, r: Reply, out: &[u8]) -> io::Result<()> {
    show::answer(to, r.number, r.place, r.value)?;
    lent::show(to, out)
}

// The answer of a call that writes a text: the reply, the fingerprint of the bytes that were lent, and the text.
pub fn with_text<W: Write>(to: &mut W, r: Reply, out: &[u8]) -> io::Result<()> {
    let count = r.value;
    with_lent(to, r, out)?;
    show::byte(to, b' ')?;
    show::start_of(to, out, count)?;
    show::byte(to, b'\n')
}
