// Division to the nearest whole number.
ghost use Rattle.std.specs.Prelude.{◌≡◌, ℕ, ◌≤◌, ℤ, pos, ◌≤ℤ◌, unsigned_abs};
ghost use Rattle.units.specs.Nearest.{Nearest, OnlyOne, nearest};

use crate::quantity::{Dividend, Divisor};

fn quotient(dividend: i64, divisor: i64) -> i64
    requires { (unsigned_abs dividend ≤ 4000000000000000000) × ((pos 1 ≤ℤ divisor) × (divisor ≤ℤ pos 1000000000)) }
    ensures { Nearest dividend divisor result }
{
    let half = divisor / 2;
    if dividend >= 0 {
        (dividend + half) / divisor
    } else {
        (dividend - half) / divisor
    }
}

/// The whole number nearest to dividend / divisor; of two equally near the one further from 0.
pub fn div_nearest(dividend: Dividend, divisor: Divisor) -> i64
    ensures near { Nearest dividend.value (pos divisor.value) result }
    ensures equal { result ≡ nearest dividend.value divisor.value }
{
    quotient(dividend.value, i64::from(divisor.value))
}

/// What `div_nearest` promises is met by one number only.
pub fn nearest_is_one()
    ensures { OnlyOne }
{}
