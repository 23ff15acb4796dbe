// Making a box, and what it says to a move.
ghost use Rattle.std.specs.Prelude.{◌≡◌, ℕ, ◌&&◌, [], ◌∷◌, true, false, nat_le, unsigned_abs, MatchResult};
ghost use Rattle.units.specs.Axes.{axis_of};
ghost use Rattle.units.specs.declared.fault.Fault.TheVariants.{Outside};
ghost use Rattle.machine.specs.Admitted.{AdmittedBy};
ghost use Rattle.machine.specs.Made.{MadeWhere};
ghost use Rattle.machine.specs.Ranges.{within};
ghost use Rattle.machine.specs.Meaning.{limits};
ghost use Rattle.machine.specs.Replies.{beyond, reply, box_at, limit_of};

use crate::bounds::Bounds;
use crate::coordinate::Coordinate;
use units::axis::{Axis, ByAxis, Point, Side};
use units::fault::Fault;

const REACH: u64 = 2_000_000_000;

fn reached(v: i64) -> bool
    ensures { result ≡ nat_le (unsigned_abs v) 2000000000 }
{
    v.unsigned_abs() <= REACH
}

// Whether every coordinate can be a limit; by name, since a point has no index.
#[tactic(auto, unfolding(crate::specs::Ranges::within))]
fn in_reach(p: Point) -> bool
    ensures { result ≡ within 2000000000 p }
{
    reached(p.x) && reached(p.y) && reached(p.z)
}

impl Bounds {
    /// `Fault::Argument` where a limit is more than 2,000,000,000 units either way.
    pub fn new(lower: Point, upper: Point) -> Result<Bounds, Fault>
        ensures { MadeWhere (within 2000000000 lower && within 2000000000 upper) (λ b. (b.lower ≡ lower) × (b.upper ≡ upper)) result }
    {
        if in_reach(lower) && in_reach(upper) {
            Ok(Bounds { lower, upper })
        } else {
            Err(Fault::Argument)
        }
    }

    /// Its lower or its upper limits.
    pub fn limits_of(&self, side: Side) -> Point
        ensures { result ≡ limits self.now side }
    {
        match side {
            Side::Lower => self.lower,
            Side::Upper => self.upper,
        }
    }

    /// What an end with this box alone tells of a limit.
    pub fn limit(&self, level: usize, axis: u8, side: Side) -> Result<i64, Fault>
        ensures { result ≡ limit_of (box_at (self.now ∷ []) level) (axis_of axis) side }
    {
        if level > 0 {
            return Err(Fault::Argument);
        }
        Ok(self.limits_of(side).on(Axis::try_from(axis)?))
    }

    fn admit_on(&self, axis: Axis, v: i64) -> Result<(), Fault>
        ensures { MatchResult result (λ _. beyond self.now axis v ≡ false) (λ f. (beyond self.now axis v ≡ true) × (f ≡ Outside 0 axis 0)) }
    {
        if v < self.lower.on(axis) || self.upper.on(axis) < v {
            return Err(Fault::Outside {
                place: 0,
                axis,
                level: 0,
            });
        }
        Ok(())
    }

    /// The coordinates of a move that this box admits.
    // By name, as `ByAxis` says.
    pub(crate) fn admitted(&self, to: Point) -> Result<ByAxis<Coordinate>, Fault>
        ensures { AdmittedBy self.now to result }
    {
        self.admit(to)?;
        Ok(ByAxis {
            x: Coordinate { units: to.x },
            y: Coordinate { units: to.y },
            z: Coordinate { units: to.z },
        })
    }

    /// What a move gets from this box alone.
    // By name: `?` ends it at the lowest axis outside; the proof of a loop over the axes did not close.
    pub fn admit(&self, to: Point) -> Result<(), Fault>
        ensures { result ≡ reply (self.now ∷ []) to }
    {
        self.admit_on(Axis::X, to.x)?;
        self.admit_on(Axis::Y, to.y)?;
        self.admit_on(Axis::Z, to.z)
    }
}
