// A step of the chain.
use units::axis::Plane;
use units::quantity::{Angle, Factor, Length};

/// Arrays go by axis: X, Y, Z. An axis that a step does not name has none.
#[derive(Clone, Copy)]
pub enum Step {
    /// Adds to the named axes.
    Offset([Option<Length>; 3]),
    /// Multiplies the named axes.
    Scale([Option<Factor>; 3]),
    /// Negates the named axes.
    Mirror([bool; 3]),
    /// Turns the two axes of the plane.
    Turn(Plane, Angle),
}
