// The scale end: holds positions, has one increment for all axes, and rounds ties away from zero.
ghost use Rattle.std.specs.Prelude.{◌≡◌, true};
ghost use Rattle.machine.specs.Ranges.{within};

use crate::bounds::Bounds;
use crate::increment::Increment;
use units::axis::Point;

pub mod moves;

/// An end of one box that stands on multiples of one increment.
#[derive(Drop)]
pub struct ScaleEnd {
    bounds: Bounds,
    increment: Increment,
    position: Point,
    ghost placed: { within 2000050000 position ≡ true },
}
