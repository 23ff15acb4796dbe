// Coordinates to counts and back.
ghost use Rattle.std.specs.Prelude.{◌≡◌, ℕ, ◌≤◌, true, ℤ, unsigned_abs};
ghost use Rattle.machine.specs.Ranges.{within};
ghost use Rattle.machine.specs.Admitted.{coordinates};
ghost use Rattle.machine.specs.Count.{tie_down, lower_count, lower_counts, lengths, standing as standing_of, standing_at};

use crate::coordinate::Coordinate;
use crate::increment::Increment;
use crate::motors::Counts;
use units::axis::ByAxis;
use units::division::div_nearest;
use units::quantity::{Dividend, Divisor};

impl Increment {
    // The nearest count of a distance from 0; a tie goes towards 0.
    fn tie_down(self, n: u64) -> u64
        requires { n ≤ 2000000000 }
        ensures value { result ≡ tie_down self.units n }
        ensures few { result ≤ 4000100000 }
    {
        let length = u64::from(self.units);
        (2 * n + (length - 1)) / (2 * length)
    }

    fn lower_count(self, v: Coordinate) -> i64
        ensures { result ≡ lower_count self.units v.units }
    {
        if v.units < 0 {
            return div_nearest(Dividend { value: v.units }, Divisor { value: self.units });
        }
        self.tie_down(v.units as u64) as i64
    }

    /// Where a count stands.
    pub(crate) fn standing(self, count: i64) -> i64
        requires { unsigned_abs (standing_of self.units count) ≤ 2000050000 }
        ensures { result ≡ standing_of self.units count }
    {
        count * i64::from(self.units)
    }
}

/// The counts to which a move's coordinates are rounded.
// By name, as `ByAxis` says.
pub(crate) fn lower_counts(increments: ByAxis<Increment>, to: ByAxis<Coordinate>) -> Counts
    ensures value { result ≡ lower_counts (lengths increments) (coordinates to) }
    ensures bound { within 2000050000 (standing_at (lengths increments) result) ≡ true }
{
    Counts {
        x: increments.x.lower_count(to.x),
        y: increments.y.lower_count(to.y),
        z: increments.z.lower_count(to.z),
    }
}
