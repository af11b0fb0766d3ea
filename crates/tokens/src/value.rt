// What a number is worth: its digits times 1000, and its decimals as thousandths.
ghost use Rattle.std.specs.Prelude.{◌≡◌, List, ℕ, ◌+◌, ◌^◌, ◌≤◌, ◌<◌, length, take, drop};
ghost use Rattle.labels.specs.Bytes.{is_digit, run as Bytes·run};
ghost use Rattle.tokens.specs.Values.{written as Values·written, filled as Values·filled, thousandths as Values·thousandths};

use labels::{is_digit, run};

// More decimals have no value.
const MOST_DECIMALS: usize = 3;

// The number that the `count` digits from `at` on write.
fn written(bytes: &[u8], at: usize, count: usize) -> usize
    requires count_bound { count ≤ Bytes·run is_digit (drop at bytes.now) }
    requires count_bound_2 { count ≤ 12 }
    ensures value { result ≡ Values·written (take count (drop at bytes.now)) }
    ensures upper_bound { result < 10 ^ count }
{
    let mut value = 0usize;
    for i in 0..count {
        value = 10 * value + usize::from(bytes[at + i] - b'0');
    }
    value
}

// The decimals that write `value`, at most three, as thousandths.
fn filled(value: usize, count: usize) -> usize
    requires value_bound { value < 10 ^ count }
    requires count_bound { count ≤ 3 }
    ensures by_index { (ds : List ℕ) → count ≡ length ds → value ≡ Values·written ds → result ≡ Values·written (Values·filled ds) }
    ensures upper_bound { result < 1000 }
{
    match count {
        1 => 100 * value,
        2 => 10 * value,
        _ => value,
    }
}

// What a number's bytes are worth; none where it has more than three decimals, or no digit.
pub(crate) fn thousandths(bytes: &[u8]) -> Option<usize>
    requires { length bytes.now ≤ 12 }
    ensures { result ≡ Values·thousandths bytes.now }
{
    let whole = run(bytes, 0, is_digit);
    if whole == 0 {
        return None;
    }
    let part = run(bytes, whole + 1, is_digit);
    if part > MOST_DECIMALS {
        return None;
    }
    let units = written(bytes, 0, whole);
    let decimals = filled(written(bytes, whole + 1, part), part);
    Some(1000 * units + decimals)
}
