// The modal G functions in force.
ghost use Rattle.std.specs.Prelude.{◌≡◌};
ghost use Rattle.workpiece.specs.Modes.{start_modes, selected_modes, is_inch, is_incremental};

use blocks::types::Selections;
use reader::functions::{Distance, LengthUnit, Motion};
use units::axis::Plane;

/// One function of each modal group but the settable frames.
#[derive(Clone, Copy)]
pub struct Modes {
    pub motion: Motion,
    pub plane: Plane,
    pub unit: LengthUnit,
    pub distance: Distance,
}

impl Modes {
    /// G1, G17, G71 and G90, as at the start and after a reset.
    pub fn start() -> Modes
        ensures { result ≡ start_modes }
    {
        Modes {
            motion: Motion::Linear,
            plane: Plane::Xy,
            unit: LengthUnit::Millimetre,
            distance: Distance::Absolute,
        }
    }

    /// The functions in force after a block's selections.
    pub fn selected(self, by: Selections) -> Modes
        ensures { result ≡ selected_modes by self }
    {
        Modes {
            motion: by.motion.unwrap_or(self.motion),
            plane: by.plane.unwrap_or(self.plane),
            unit: by.unit.unwrap_or(self.unit),
            distance: by.distance.unwrap_or(self.distance),
        }
    }
}

/// Whether lengths are in inches.
pub fn is_inch(unit: LengthUnit) -> bool
    ensures { result ≡ is_inch unit }
{
    unit == LengthUnit::Inch
}

/// Whether axis words add to where the axis stands.
pub fn is_incremental(distance: Distance) -> bool
    ensures { result ≡ is_incremental distance }
{
    distance == Distance::Incremental
}
