// The mode line's word, and what it asks for.
ghost use Rattle.std.specs.Prelude.{◌≡◌};
ghost use Rattle.report.specs.Program.{mode_of};

use weights::Rooting;

// What the mode of a line asks for, where it has one: whether every cluster is allowed or those that the gene trees show, and how these are counted.
pub fn mode_of(word: &[u8]) -> Option<(bool, Rooting)>
    ensures { result ≡ mode_of word.now }
{
    // No `match`: it goes byte by byte through the four words, with a goal for each byte.
    if word == b"all".as_slice() {
        return Some((true, Rooting::Rooted));
    }
    if word == b"genes".as_slice() {
        return Some((false, Rooting::Rooted));
    }
    if word == b"all unrooted".as_slice() {
        return Some((true, Rooting::Unrooted));
    }
    if word == b"genes unrooted".as_slice() {
        return Some((false, Rooting::Unrooted));
    }
    None
}
