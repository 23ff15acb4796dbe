// Axes by number and by point, as ends written elsewhere ask for them.
ghost use Rattle.std.specs.Prelude.{◌≡◌};
ghost use Rattle.units.specs.Axes.{at, axis_of};

use units::axis::{Axis, Point};
use units::fault::Fault;

/// The axis of a number: X is 1, Y 2 and Z 3.
pub fn axis_of(number: u8) -> Result<Axis, Fault>
    ensures { result ≡ axis_of number }
{
    Axis::try_from(number)
}

/// A point's coordinate on an axis.
pub fn coordinate(p: Point, axis: Axis) -> i64
    ensures { result ≡ at p axis }
{
    p.on(axis)
}
