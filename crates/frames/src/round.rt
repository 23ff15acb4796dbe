// Products and the division that rounds them, at both ends of the range.
ghost use Rattle.std.specs.Prelude.{◌≡◌, ◌%◌, ◌≤◌, max, pos, ◌+ℤ◌, ◌-ℤ◌, ◌*ℤ◌, unsigned_abs};
ghost use Rattle.units.specs.Nearest.{nearest};
ghost use Rattle.fractions.specs.Fractions.{one_if};
ghost use Rattle.frames.specs.Pushing.{scale_spread, odd_spread};

use crate::coordinate::Coordinate;
use turns::numbers::TurnNumbers;
use units::division::div_nearest;
use units::quantity::{Dividend, Divisor, Factor};

/// Turn numbers are in 10^9ths.
const TURN_PARTS: Divisor = Divisor {
    value: 1_000_000_000,
};

/// Scale factors are in 100,000ths.
const SCALE_PARTS: Divisor = Divisor { value: 100_000 };

/// A product that fits.
fn times(a: i64, x: Coordinate) -> i64
    requires { unsigned_abs a ≤ 1000000000 }
    ensures value { result ≡ a *ℤ x.at }
    ensures size { unsigned_abs result ≤ 2000000000000000000 }
{
    a * x.at
}

/// (a×i + b×j) / 10^9, rounded.
fn weighed(a: i64, i: Coordinate, b: i64, j: Coordinate) -> i64
    requires { (unsigned_abs a ≤ 1000000000) × (unsigned_abs b ≤ 1000000000) }
    ensures { result ≡ nearest (a *ℤ i.at +ℤ b *ℤ j.at) 1000000000 }
{
    let value = times(a, i) + times(b, j);
    div_nearest(Dividend { value }, TURN_PARTS)
}

/// (C×i − S×j) / 10^9, rounded.
pub fn odd_first(n: TurnNumbers, i: Coordinate, j: Coordinate) -> i64
    ensures { result ≡ nearest (n.cosine *ℤ i.at -ℤ n.sine *ℤ j.at) 1000000000 }
{
    weighed(n.cosine, i, -n.sine, j)
}

/// (S×i + C×j) / 10^9, rounded.
pub fn odd_second(n: TurnNumbers, i: Coordinate, j: Coordinate) -> i64
    ensures { result ≡ nearest (n.sine *ℤ i.at +ℤ n.cosine *ℤ j.at) 1000000000 }
{
    weighed(n.sine, i, n.cosine, j)
}

/// What an odd turn makes of the larger spread.
pub fn odd_spread(i: Coordinate, j: Coordinate) -> u64
    ensures { result ≡ odd_spread (max i.spread j.spread) i.at j.at }
{
    let m = i.spread.max(j.spread);
    let size = i.at.unsigned_abs() + j.at.unsigned_abs();
    (3 * m + 1) / 2 + (size + 999_999_999) / 1_000_000_000 + 1
}

/// 1 where the division by 100,000 leaves a remainder.
fn rest_of(n: i64) -> u64
    ensures { result ≡ one_if (unsigned_abs n % 100000) }
{
    u64::from(n.unsigned_abs() % 100_000 != 0)
}

/// f × coordinate / 100,000, rounded, and what that makes of the spread.
pub fn scaled(f: Factor, x: Coordinate) -> (i64, u64)
    ensures at { result.0 ≡ nearest (pos f.parts *ℤ x.at) 100000 }
    ensures spread { result.1 ≡ scale_spread x.spread f.parts x.at }
{
    let value = times(i64::from(f.parts), x);
    let factor = u64::from(f.parts).max(100_000);
    let spread = (x.spread * factor + 99_999) / 100_000 + rest_of(value);
    (div_nearest(Dividend { value }, SCALE_PARTS), spread)
}
