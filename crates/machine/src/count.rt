// The count end: holds motor counts, has a count length for each axis, and rounds ties to the lower count.
ghost use Rattle.std.specs.Prelude.{◌≡◌, true};
ghost use Rattle.machine.specs.Ranges.{within};
ghost use Rattle.machine.specs.Count.{lengths, standing_at};

use crate::bounds::Bounds;
use crate::increment::Increment;
use crate::motors::Counts;
use units::axis::ByAxis;

pub mod moves;
pub mod rounding;

/// An end of one box whose motors stand on whole counts.
#[derive(Drop)]
pub struct CountEnd {
    bounds: Bounds,
    increments: ByAxis<Increment>,
    counts: Counts,
    ghost placed: { within 2000050000 (standing_at (lengths increments) counts) ≡ true },
}
