// Which axes a block moves.
ghost use Rattle.std.specs.Prelude.{◌≡◌, ℕ, ◌+◌, ◌<◌, ◌≤◌, Bool, true, false, cond, length};
ghost use Rattle.chains.specs.Chains.{steps_of};
ghost use Rattle.chains.specs.Joined.{joins_next, linked, reached, moved_axes, MovedAxes};

use crate::chain::Chain;
use crate::plane::first_axis;
use crate::step::Step;

impl Step {
    // Whether it joins the axis to the next one of the ring X, Y, Z, X.
    fn joins_next(self, k: usize) -> bool
        ensures { result ≡ joins_next k self }
    {
        matches!(self, Step::Turn(plane, _) if first_axis(plane) == k)
    }
}

/// The axis a is moved: named, or joined to a named one, at once or by way of the third.
fn reaches(a: bool, b: bool, c: bool, up: bool, across: bool, down: bool) -> bool
    ensures { result ≡ reached a b c up across down }
{
    a || (up && (b || (across && c))) || (down && (c || (across && b)))
}

impl Chain {
    fn joins_next(&self, k: usize) -> bool
        ensures { result ≡ linked k (steps_of self.now) }
    {
        self.steps().iter().any(|step| step.joins_next(k))
    }

    /// The axes that move where some are named: those, and with one of two axes that a turn joins the other.
    pub fn moved_axes(&self, named: [bool; 3]) -> [bool; 3]
        ensures told { result ≡ moved_axes (steps_of self.now) named }
        ensures moved { MovedAxes (steps_of self.now) named result }
    {
        let (xy, yz, zx) = (self.joins_next(0), self.joins_next(1), self.joins_next(2));
        // Three rows by hand: by index, each place would be taken modulo 3.
        [
            reaches(named[0], named[1], named[2], xy, yz, zx),
            reaches(named[1], named[2], named[0], yz, zx, xy),
            reaches(named[2], named[0], named[1], zx, xy, yz),
        ]
    }
}
