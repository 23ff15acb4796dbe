// The axes of a plane, by index: X 0, Y 1, Z 2. An `Axis` would be no plainer: all that is done with them is to index arrays of three and to compare.
ghost use Rattle.std.specs.Prelude.{◌≡◌, ℕ, ◌<◌};
ghost use Rattle.chains.specs.Steps.{first_of, second_of};

use units::axis::Plane;

/// The axis that a turn goes from.
pub fn first_axis(plane: Plane) -> usize
    ensures equal { result ≡ first_of plane }
    ensures below { result < 3 }
{
    match plane {
        Plane::Xy => 0,
        Plane::Zx => 2,
        Plane::Yz => 1,
    }
}

/// The axis that a turn goes to.
pub fn second_axis(plane: Plane) -> usize
    ensures equal { result ≡ second_of plane }
    ensures below { result < 3 }
{
    match plane {
        Plane::Xy => 1,
        Plane::Zx => 0,
        Plane::Yz => 2,
    }
}
