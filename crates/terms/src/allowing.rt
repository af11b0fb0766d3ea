// The allowed clusters: every one, or by a byte for each cluster number.
ghost use Rattle.std.specs.Prelude.{◌≡◌, ◌<◌, ◌≤◌, ◌^◌, [], ◌∷◌, length, nat_lt, IfSome, option_copied};
ghost use Rattle.std.specs.List.{position};
ghost use Rattle.roster.specs.Verdict.{verdict, said_by};
ghost use Rattle.terms.specs.Allowed.{allowed_in, allowed_for, allowed_test};

use faults::{Fault, Refusal};

// Whether a is allowed by the bytes: marked, a single species, or the whole. `is_allowed_for` and `plain` call it, with an allowed set that was judged.
#[tactic(auto, unfolding(crate::specs::Allowed::allowed_in))]
pub fn is_allowed(n: usize, allowed: &[u8], a: usize) -> bool
    requires n_bound { n ≤ 16 }
    requires a_bound { a < 65536 }
    requires a_in_bounds { a < length allowed.now }
    ensures { result ≡ allowed_in n allowed.now a }
{
    let cluster = a as u32;
    clusters::size(cluster) == 1 || cluster == clusters::whole(n) || allowed[a] == 1
}

// Whether a is allowed: every cluster is where there are no bytes, else as the bytes say. `tables` calls it, with bytes that were judged then.
pub fn is_allowed_for(n: usize, allowed: Option<&[u8]>, a: usize) -> bool
    requires n_bound { n ≤ 16 }
    requires a_bound { a < 65536 }
    requires a_in_bounds { IfSome allowed (λ bytes. a < length bytes.now) }
    ensures { result ≡ allowed_for (option_copied allowed.entry) n a }
{
    allowed.is_none_or(|bytes| is_allowed(n, bytes, a))
}

// The place of the first byte that is not 0 or 1, if there is one. The layers above may ask it too.
pub fn first_strange(bytes: &[u8]) -> Option<usize>
    ensures { result ≡ position (λ byte. nat_lt 1 byte) bytes.now }
{
    // over the places and not `position`, so that the first of them, 0, is written out
    (0..bytes.len()).find(|place| bytes[*place] > 1)
}

// Whether the bytes of the clusters of n species are 0 or 1; the first that is not is refused. `search`, `plain` and `stand` call it, with so many bytes lent.
pub fn judge_allowed(n: usize, allowed: &[u8]) -> Result<(), Refusal>
    requires n_bound { n ≤ 16 }
    requires allowed_long { 2 ^ n ≤ length allowed.now }
    ensures { said_by result ≡ verdict (allowed_test n allowed.now ∷ []) }
{
    let entries = clusters::single(n) as usize;
    match first_strange(&allowed[..entries]) {
        Some(place) => Err(Fault::NoCluster.at(place)),
        None => Ok(()),
    }
}
