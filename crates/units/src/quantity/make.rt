// Making the numbers whose range is part of their type.
ghost use Rattle.std.specs.Prelude.{◌≡◌, ℕ, ◌+◌, ◌%◌, ℤ, pos};
ghost use Rattle.units.specs.Quantities.{length_of, factor_of, angle_of, tolerance_of, zero_length, turned_on};

use crate::quantity::{Angle, Factor, Length, Tolerance};

impl Length {
    pub const MOST: u64 = 999_999_999;

    // A name, and no `Default`: none can be derived for a type with a range, and `zero` says more.
    pub fn zero() -> Length
        ensures { result ≡ zero_length }
    {
        Length { units: 0 }
    }

    /// None where it is out of range.
    pub fn new(units: i64) -> Option<Length>
        ensures { result ≡ length_of units }
    {
        if units.unsigned_abs() > Length::MOST {
            return None;
        }
        Some(Length { units })
    }
}

impl Factor {
    pub const MOST: u32 = 10_000_000;

    /// None where it is out of range.
    pub fn new(parts: u32) -> Option<Factor>
        ensures { result ≡ factor_of parts }
    {
        if !(1..=Factor::MOST).contains(&parts) {
            return None;
        }
        Some(Factor { parts })
    }
}

impl Angle {
    pub const FULL: u32 = 3_600_000;

    /// None from a full turn on.
    pub fn new(ticks: u32) -> Option<Angle>
        ensures { result ≡ angle_of ticks }
    {
        if ticks >= Angle::FULL {
            return None;
        }
        Some(Angle { ticks })
    }

    /// One angle after the other, modulo a full turn.
    pub fn plus(self, other: Angle) -> Angle
        ensures { result ≡ turned_on self other }
    {
        Angle {
            ticks: (self.ticks + other.ticks) % Angle::FULL,
        }
    }
}

impl Tolerance {
    pub const MOST: u64 = 100_000;

    /// None where it is out of range.
    pub fn new(units: u64) -> Option<Tolerance>
        ensures { result ≡ tolerance_of units }
    {
        if units > Tolerance::MOST {
            return None;
        }
        Some(Tolerance { units })
    }
}
