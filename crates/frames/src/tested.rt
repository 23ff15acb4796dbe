// Images between two steps, and between a step and its tests.
ghost use Rattle.std.specs.Prelude.{◌≡◌, ℕ, ◌<◌, ◌≤◌, false, slice_index_or, unsigned_abs};
ghost use Rattle.frames.specs.Pushing.{coordinate, spread_of};

use crate::coordinate::Coordinate;
use crate::image::Image;

/// An image with each axis within the range: at the start, and after a step and its tests.
#[derive(Clone, Copy)]
pub struct Tested {
    pub image: Image,
    ghost near: { (a : ℕ) → a < 3 → unsigned_abs (coordinate image a) ≤ 2000000000 },
    ghost small: { (a : ℕ) → a < 3 → spread_of image a ≤ 100000 },
}

/// An image after a step and before its tests: only the moved axes may lie out of the range.
#[derive(Clone, Copy)]
pub struct Stepped {
    pub image: Image,
    pub moved: [bool; 3],
    ghost near: { (a : ℕ) → a < 3 → slice_index_or moved a false ≡ false → unsigned_abs (coordinate image a) ≤ 2000000000 },
    ghost small: { (a : ℕ) → a < 3 → slice_index_or moved a false ≡ false → spread_of image a ≤ 100000 },
}

impl Tested {
    // `a < 3` stands at what takes an index; the loops over the axes are by index, a rule of the project.
    pub fn axis(&self, a: usize) -> Coordinate
        requires { a < 3 }
        ensures at { result.at ≡ coordinate self.now.image a }
        ensures spread { result.spread ≡ spread_of self.now.image a }
    {
        Coordinate {
            at: self.image.at[a],
            spread: self.image.spread[a],
        }
    }
}
