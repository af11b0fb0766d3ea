// The lines of the input.
ghost use Rattle.std.specs.Prelude.{◌≡◌};
ghost use Rattle.report.specs.Input.{line_length};

// How long the line at the front of s is, without its line feed.
pub fn line_length(s: &[u8]) -> usize
    ensures { result ≡ line_length s.now }
{
    labels::run(s, 0, |b| b != b'\n')
}
