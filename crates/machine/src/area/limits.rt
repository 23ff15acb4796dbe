// Putting a work area on an end, writing its limits, and taking it off.
ghost use Rattle.std.specs.Prelude.{◌≡◌};
ghost use Rattle.machine.specs.Area.{written as written_limit, written_over, rewritten as rewritten_limits};

use crate::area::WorkArea;
use crate::bounds::Bounds;
use units::axis::{Point, Side};
use units::quantity::Length;

fn written(value: Option<Length>, old: i64) -> i64
    ensures { result ≡ written_limit value old }
{
    value.map_or(old, |length| length.units)
}

// By name: a point has no index.
fn written_over(values: [Option<Length>; 3], old: Point) -> Point
    ensures { result ≡ written_over values old }
{
    Point {
        x: written(values[0], old.x),
        y: written(values[1], old.y),
        z: written(values[2], old.z),
    }
}

impl<E> WorkArea<E> {
    /// The work area of that box over an end.
    pub fn over(bounds: Bounds, below: E) -> WorkArea<E>
        ensures own { result.own ≡ bounds }
        ensures below { result.below ≡ below }
    {
        WorkArea { own: bounds, below }
    }

    /// Writes the given lengths as its own box's limits on that side; an axis without one keeps its limit.
    pub fn write_limits(&mut self, side: Side, values: [Option<Length>; 3])
        ensures own { self.new.own ≡ rewritten_limits side values self.old.own }
        ensures below { self.new.below ≡ self.old.below }
    {
        match side {
            Side::Lower => self.own.lower = written_over(values, self.own.lower),
            Side::Upper => self.own.upper = written_over(values, self.own.upper),
        }
    }

    /// The end below, as it stands.
    pub fn into_below(self) -> E
        ensures { result ≡ self.below }
    {
        self.below
    }
}
