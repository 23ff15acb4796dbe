// Numbers as lengths, factors and angles, where they are in range.
ghost use Rattle.std.specs.Prelude.{◌≡◌, ◌*◌, ◌^◌, ◌<◌, ◌≤◌, ◌-◌, pos, ◌*ℤ◌, ◌≤ℤ◌, FitsSigned};
ghost use Rattle.std.specs.Int.{w64};
ghost use Rattle.std.specs.Option.{SomeIff};
ghost use Rattle.blocks.specs.Measures.{parts_of, most_in, units_in, whole_factor, whole_angle, length_in, factor_in, angle_in};

use reader::types::Number;
use units::quantity::{Angle, Factor, Length};

// How many decimals are counted.
const MILLIMETRE_DECIMALS: usize = 5;

const INCH_DECIMALS: usize = 4;

const FACTOR_DECIMALS: usize = 5;

const ANGLE_DECIMALS: usize = 4;

// Units in a ten-thousandth of an inch.
const INCH_UNITS: i64 = 254;

// A table, not `pow`: one is looked up for each number of a block.
fn power(k: usize) -> i64
    requires { k ≤ 5 }
    ensures { result ≡ pos (10 ^ k) }
{
    static POWERS: [i64; 6] = [1, 10, 100, 1000, 10_000, 100_000];
    POWERS[k]
}

// How many parts a number is, where its last counted decimal has `each`: none with decimals beyond, or beyond 64 bits.
fn parts(n: Number, decimals: usize, each: i64) -> Option<i64>
    requires { (decimals ≤ 5) × (pos 1 ≤ℤ each) × (each ≤ℤ pos 254) }
    ensures { SomeIff result ((n.decimals ≤ decimals) × FitsSigned w64 (parts_of n decimals each)) (parts_of n decimals each) }
{
    if n.decimals > decimals {
        return None;
    }
    n.value.checked_mul(each * power(decimals - n.decimals))
}

fn whole_factor(parts: i64) -> Option<Factor>
    ensures { result ≡ whole_factor parts }
{
    u32::try_from(parts).ok().and_then(Factor::new)
}

// A full turn more where it is below 0.
fn whole_angle(ticks: i64) -> Option<Angle>
    ensures { result ≡ whole_angle ticks }
{
    let full = Angle::FULL as i64;
    if ticks <= -full {
        return None;
    }
    let turned = if ticks < 0 { ticks + full } else { ticks };
    u32::try_from(turned).ok().and_then(Angle::new)
}

fn units(inch: bool, n: Number) -> Option<i64>
    ensures { SomeIff result ((n.decimals ≤ most_in inch) × FitsSigned w64 (units_in inch n)) (units_in inch n) }
{
    if inch {
        parts(n, INCH_DECIMALS, INCH_UNITS)
    } else {
        parts(n, MILLIMETRE_DECIMALS, 1)
    }
}

/// A length in units.
pub fn length(inch: bool, n: Number) -> Option<Length>
    ensures { result ≡ length_in inch n }
{
    units(inch, n).and_then(Length::new)
}

/// A factor in hundred-thousandths.
pub fn factor(n: Number) -> Option<Factor>
    ensures { result ≡ factor_in n }
{
    parts(n, FACTOR_DECIMALS, 1).and_then(whole_factor)
}

/// An angle in ticks.
pub fn angle(n: Number) -> Option<Angle>
    ensures { result ≡ angle_in n }
{
    parts(n, ANGLE_DECIMALS, 1).and_then(whole_angle)
}
