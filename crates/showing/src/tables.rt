// The fingerprints of the tables that the search was lent, after it.
use crate::lent::fingerprint;
use std::io;
use std::io::Write;

// The fingerprints of the score table and the split table, behind a colon.
pub fn show<W: Write>(to: &mut W, scores: &[u32], splits: &[u16]) -> io::Result<()> {
    write!(to, " : {} {}", fingerprint(scores), fingerprint(splits))
}

// That of the table of ties, behind them.
pub fn show_ties<W: Write>(to: &mut W, ties: &[u64]) -> io::Result<()> {
    write!(to, " {}", fingerprint(ties))
}
