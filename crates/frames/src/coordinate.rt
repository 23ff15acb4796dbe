// One axis of an image, through a step other than a turn.
ghost use Rattle.std.specs.Prelude.{◌≡◌, ◌≤◌, unsigned_abs};
ghost use Rattle.frames.specs.Pushing.{offset_by, scaled_by, scaled_spread, mirrored_by};

use crate::round::scaled;
use units::quantity::{Factor, Length};

/// Coordinate and spread, within the range that the tests leave.
// Before the tests they are a pair: nothing is known of them that a struct could hold.
#[derive(Clone, Copy)]
pub struct Coordinate {
    pub at: i64,
    pub spread: u64,
    ghost near: { unsigned_abs at ≤ 2000000000 },
    ghost small: { spread ≤ 100000 },
}

impl Coordinate {
    /// Coordinate and spread, as they are.
    pub fn kept(self) -> (i64, u64)
        ensures { result ≡ (self.at, self.spread) }
    {
        (self.at, self.spread)
    }

    pub fn offset(self, by: Option<Length>) -> (i64, u64)
        ensures { result ≡ (offset_by by self.at, self.spread) }
    {
        (by.map_or(self.at, |o| self.at + o.units), self.spread)
    }

    pub fn mirrored(self, named: bool) -> (i64, u64)
        ensures { result ≡ (mirrored_by named self.at, self.spread) }
    {
        (if named { -self.at } else { self.at }, self.spread)
    }

    pub fn scaled(self, by: Option<Factor>) -> (i64, u64)
        ensures { result ≡ (scaled_by by self.at, scaled_spread by self.at self.spread) }
    {
        by.map_or(self.kept(), |f| scaled(f, self))
    }
}
