// A name in the two forms that it is written in: bare, or between quotes.
ghost use Rattle.std.specs.Prelude.{◌≡◌, [], ◌∷◌, ◌++◌, map, ◌+◌, ◌≤◌, length};
ghost use Rattle.labels.specs.Labels.{doubled as Labels·doubled};
ghost use Rattle.labels.specs.Writing.{is_free, may_be_bare, underscored as Writing·underscored, label_of};
ghost use Rattle.printing.specs.Work.{Put};

// letters, digits and blanks
fn is_free(b: u8) -> bool
    ensures { result ≡ is_free b }
{
    labels::is_name_byte(b) || b == b' '
}

// Whether the name has only letters, digits and blanks.
fn may_be_bare(name: &[u8]) -> bool
    ensures { result ≡ may_be_bare name.now }
{
    name.iter().all(|b| is_free(*b))
}

// A byte of a name as it stands in a bare label: an underscore for a blank.
fn underscored(b: u8) -> u8
    ensures { result ≡ Writing·underscored b }
{
    if b == b' ' { b'_' } else { b }
}

// Writes the name bare from `at` on; answers the offset behind it.
fn bare(out: &mut [u8], at: usize, name: &[u8]) -> usize
    requires { at + length name.now ≤ length out.old }
    ensures { Put out.old at (map Writing·underscored name.now) result out.new }
{
    for (i, b) in name.iter().enumerate() {
        out[at + i] = underscored(*b);
    }
    at + name.len()
}

// Writes the name with each quote twice from `at` on; answers the offset behind it. `bare` puts one byte for each, so one function for both is no plainer.
fn doubled(out: &mut [u8], at: usize, name: &[u8]) -> usize
    requires { at + length (Labels·doubled name.now) ≤ length out.old }
    ensures { Put out.old at (Labels·doubled name.now) result out.new }
{
    let mut end = at;
    for b in name {
        let quote = *b == b'\'';
        if quote {
            out[end] = *b;
            end += 1;
        }
        out[end] = *b;
        end += 1;
    }
    end
}

// Writes the name between quotes from `at` on; answers the offset behind it.
fn quoted(out: &mut [u8], at: usize, name: &[u8]) -> usize
    requires { at + length (Labels·doubled name.now) + 2 ≤ length out.old }
    ensures { Put out.old at (39 ∷ Labels·doubled name.now ++ 39 ∷ []) result out.new }
{
    out[at] = b'\'';
    let end = doubled(out, at + 1, name);
    out[end] = b'\'';
    end + 1
}

// Writes the label of a name from `at` on; answers the offset behind it.
pub(crate) fn written(out: &mut [u8], at: usize, name: &[u8]) -> usize
    requires { at + length (label_of name.now) ≤ length out.old }
    ensures { Put out.old at (label_of name.now) result out.new }
{
    if may_be_bare(name) {
        bare(out, at, name)
    } else {
        quoted(out, at, name)
    }
}

// How many bytes the name has with each quote twice.
fn doubled_length(name: &[u8]) -> usize
    requires { length name.now ≤ 16 }
    ensures { result ≡ length (Labels·doubled name.now) }
{
    name.len() + name.iter().filter(|b| **b == b'\'').count()
}

// How many bytes the label of a name has.
pub(crate) fn written_length(name: &[u8]) -> usize
    requires { length name.now ≤ 16 }
    ensures { result ≡ length (label_of name.now) }
{
    if may_be_bare(name) {
        name.len()
    } else {
        doubled_length(name) + 2
    }
}
