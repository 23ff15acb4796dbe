// A box of a machine end.
ghost use Rattle.std.specs.Prelude.{◌≡◌, true};
ghost use Rattle.machine.specs.Ranges.{within};

use units::axis::Point;

pub mod make;

/// A box: its lower and upper limits, each at most 2,000,000,000 units either way. It may hold no point.
#[derive(Clone, Copy)]
pub struct Bounds {
    pub lower: Point,
    pub upper: Point,
    ghost low: { within 2000000000 lower ≡ true },
    ghost high: { within 2000000000 upper ≡ true },
}
