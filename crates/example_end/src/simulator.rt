// A simulated mill: one box, increments of one unit, and no rounding.
ghost use Rattle.std.specs.Prelude.{◌≡◌, true};
ghost use Rattle.machine.specs.Ranges.{within};

use machine::bounds::Bounds;
use units::axis::Point;

pub mod moves;

/// Holds the position last taken, which lies within its box or is the start.
#[derive(Drop)]
pub struct Simulator {
    bounds: Bounds,
    position: Point,
    ghost placed: { within 2000000000 position ≡ true },
}
