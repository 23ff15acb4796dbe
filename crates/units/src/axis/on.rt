// What a point says of an axis.
ghost use Rattle.std.specs.Prelude.{◌≡◌};
ghost use Rattle.units.specs.Axes.{at};

use crate::axis::{Axis, Point};

impl Point {
    /// The coordinate on an axis.
    pub fn on(self, axis: Axis) -> i64
        ensures { result ≡ at self axis }
    {
        match axis {
            Axis::X => self.x,
            Axis::Y => self.y,
            Axis::Z => self.z,
        }
    }
}
