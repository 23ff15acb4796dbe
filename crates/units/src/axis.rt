// The linear axes of the mill, its planes, the sides of a box, and points.
ghost use Rattle.std.specs.Prelude.{◌≡◌, Some};
ghost use Rattle.units.specs.Axes.{axis_number, axis_of, plane_name, on_axis};

use crate::fault::Fault;
use std::fmt;

pub mod on;

/// X, Y and Z are axes 1, 2 and 3.
#[derive(Clone, Copy, PartialEq, Eq, Debug)]
pub enum Axis {
    X,
    Y,
    Z,
}

impl Axis {
    /// X is 1, Y 2 and Z 3.
    pub fn number(self) -> u8
        ensures { result ≡ axis_number self }
    {
        match self {
            Axis::X => 1,
            Axis::Y => 2,
            Axis::Z => 3,
        }
    }
}

/// The axis of a number; `Fault::Argument` where it is the number of none.
impl TryFrom<u8> for Axis {
    type Error = Fault;

    ghost try_from_gives = { λ number r. r ≡ axis_of number };

    fn try_from(number: u8) -> Result<Axis, Fault> {
        match number {
            1 => Ok(Axis::X),
            2 => Ok(Axis::Y),
            3 => Ok(Axis::Z),
            _ => Err(Fault::Argument),
        }
    }
}

/// The plane that a turn acts in: its first axis and then its second. G17 is Xy, G18 Zx, G19 Yz.
#[derive(Clone, Copy, PartialEq, Eq, Debug)]
pub enum Plane {
    Xy,
    Zx,
    Yz,
}

/// The G function that selects the plane.
impl fmt::Display for Plane {
    ghost output = { λ plane. Some (plane_name plane) };

    fn fmt<W: fmt::Write>(&self, f: &mut fmt::Formatter<W>) -> fmt::Result {
        f.write_str(match self {
            Plane::Xy => "G17",
            Plane::Zx => "G18",
            Plane::Yz => "G19",
        })
    }
}

/// Which limit of a box.
#[derive(Clone, Copy, PartialEq, Eq, Debug)]
pub enum Side {
    Lower,
    Upper,
}

/// Three coordinates in units of 10 nm.
// Not a `ByAxis<i64>`, which the counts of three motors are: no count stands for a coordinate.
#[derive(Clone, Copy, PartialEq, Eq, Debug, Default)]
pub struct Point {
    pub x: i64,
    pub y: i64,
    pub z: i64,
}

/// One value for each axis.
// No `map`: what is made of the three ends at the first that fails, or makes a point, and by name is no longer. Arrays of three stand where an index goes over them.
#[derive(Clone, Copy, PartialEq, Eq, Debug, Default)]
pub struct ByAxis<T> {
    pub x: T,
    pub y: T,
    pub z: T,
}

impl<T: Copy> ByAxis<T> {
    /// The value of an axis.
    pub fn on(self, axis: Axis) -> T
        ensures { result ≡ on_axis self axis }
    {
        match axis {
            Axis::X => self.x,
            Axis::Y => self.y,
            Axis::Z => self.z,
        }
    }
}
