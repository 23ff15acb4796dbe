// Numbers as words write them.
ghost use Rattle.std.specs.Prelude.{◌≡◌, ◌^◌, ◌<◌, drop, MatchResult};
ghost use Rattle.std.specs.Str.Parse.{digits_value as value_of};
ghost use Rattle.reader.specs.Shapes.{IsMagnitude, IsNumber, IsCode, IsTurn, FirstWrong, digits as digits_of, decimals as decimals_of, unsigned, negative, valued};

use crate::types::Number;

/// How many digits a number has at most, before and after its point together.
pub const NUMBER_DIGITS: usize = 10;
/// How many digits N, G, M, T and D take at most.
pub const CODE_DIGITS: usize = 8;

/// Digits and at most one point.
#[derive(Clone, Copy)]
struct Magnitude {
    value: u64,
    decimals: usize,
}

fn read_magnitude(s: &[u8]) -> Result<Magnitude, usize>
    ensures { MatchResult result (λ m. IsMagnitude s.now × (m.value ≡ value_of 10 (digits_of s.now)) × (m.decimals ≡ decimals_of s.now) × (m.value < 10 ^ 10)) (FirstWrong IsMagnitude s.now) }
{
    let mut value: u64 = 0;
    let mut digits: usize = 0;
    let mut decimals: usize = 0;
    // A flag and a count, not an option of one: without a point the count is 0, which is what is told.
    let mut point = false;
    for (i, b) in s.iter().enumerate() {
        match *b {
            b'0'..=b'9' => {
                if digits == NUMBER_DIGITS {
                    return Err(i);
                }
                value = value * 10 + (*b - b'0') as u64;
                digits += 1;
                if point {
                    decimals += 1;
                }
            }
            b'.' => {
                if point {
                    return Err(i);
                }
                point = true;
            }
            _ => return Err(i),
        }
    }
    if digits == 0 {
        return Err(s.len());
    }
    Ok(Magnitude { value, decimals })
}

// Whether a text has a minus, and what follows its sign.
fn split_sign(s: &[u8]) -> (bool, &[u8])
    ensures sign { result.0 ≡ negative s.now }
    ensures rest { result.1.now ≡ unsigned s.now }
{
    match s {
        [b'-', rest @ ..] => (true, rest),
        [b'+', rest @ ..] => (false, rest),
        _ => (false, s),
    }
}

/// An optional sign, and a magnitude; else the place of the first wrong byte.
pub fn read_number(s: &[u8]) -> Result<Number, usize>
    ensures { MatchResult result (λ m. IsNumber s.now × (m.value ≡ valued s.now) × (m.decimals ≡ decimals_of (unsigned s.now))) (FirstWrong IsNumber s.now) }
{
    let (minus, digits) = split_sign(s);
    let signs = s.len() - digits.len();
    let m = read_magnitude(digits).map_err(|i| i + signs)?;
    let value = m.value as i64;
    Ok(Number {
        value: if minus { -value } else { value },
        decimals: m.decimals,
    })
}

/// `=` and a number; else the place of the first wrong byte.
pub fn read_turn(s: &[u8]) -> Result<Number, usize>
    ensures { MatchResult result (λ m. IsTurn s.now × (m.value ≡ valued (drop 1 s.now)) × (m.decimals ≡ decimals_of (unsigned (drop 1 s.now)))) (FirstWrong IsTurn s.now) }
{
    match s {
        [b'=', rest @ ..] => read_number(rest).map_err(|i| i + 1),
        _ => Err(0),
    }
}

/// 1 to 8 digits; else the place of the first wrong byte.
// Not `read_magnitude` with another limit: a code has no point, so each of its bytes is a digit.
pub fn read_code(s: &[u8]) -> Result<u32, usize>
    ensures { MatchResult result (λ n. IsCode s.now × (n ≡ value_of 10 s.now)) (FirstWrong IsCode s.now) }
{
    let mut value: u32 = 0;
    for (i, b) in s.iter().enumerate() {
        match *b {
            b'0'..=b'9' => {
                if i == CODE_DIGITS {
                    return Err(i);
                }
                value = value * 10 + (*b - b'0') as u32;
            }
            _ => return Err(i),
        }
    }
    if s.is_empty() {
        return Err(0);
    }
    Ok(value)
}
