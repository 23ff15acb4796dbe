// Numbers of a line.
ghost use Rattle.std.specs.Prelude.{◌≡◌, ℕ, ◌+◌, ◌<◌, ◌≤◌, length, ℤ, pos, neg_ℤ};
ghost use Rattle.script.specs.Numbers.{extended_by, magnitude_of, number_of};

// One digit more, where the number is then no larger than `most`.
fn extended(value: u64, b: u8, most: u64) -> Option<u64>
    requires { most ≤ 9223372036854775808 }
    ensures { result ≡ extended_by most value b }
{
    if !matches!(b, b'0'..=b'9') {
        return None;
    }
    let next = value.checked_mul(10)?.checked_add(u64::from(b - b'0'))?;
    (next <= most).then_some(next)
}

// Digits alone, at least one, no larger than `most`. A block's numbers end at so many digits, these at a largest value.
fn magnitude(digits: &[u8], most: u64) -> Option<u64>
    requires { most ≤ 9223372036854775808 }
    ensures { result ≡ magnitude_of most digits.now }
{
    if digits.is_empty() {
        return None;
    }
    let mut value = 0;
    for b in digits {
        value = extended(value, *b, most)?;
    }
    Some(value)
}

fn negative(n: u64) -> i64
    requires { n ≤ 9223372036854775808 }
    ensures { result ≡ neg_ℤ (pos n) }
{
    if n == 1 << 63 {
        return i64::MIN;
    }
    -(n as i64)
}

/// A decimal number with an optional minus, where it fits 64 bits.
pub fn number(word: &[u8]) -> Option<i64>
    ensures { result ≡ number_of word.now }
{
    match word {
        [b'-', digits @ ..] => magnitude(digits, 1 << 63).map(negative),
        _ => magnitude(word, i64::MAX as u64).map(|n| n as i64),
    }
}
