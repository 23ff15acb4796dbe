// Which axes a step and a chain touch.
ghost use Rattle.std.specs.Prelude.{◌≡◌, ℕ, ◌<◌, Bool, true, false, ◌||◌, List, [], ◌∷◌};
ghost use Rattle.chains.specs.Steps.{touches};
ghost use Rattle.chains.specs.Chains.{steps_of, touched_at, touched as all_touched};

use crate::chain::Chain;
use crate::plane::{first_axis, second_axis};
use crate::step::Step;

// Axes by index, as in plane.rt.
impl Step {
    fn touches(self, a: usize) -> bool
        requires { a < 3 }
        ensures { result ≡ touches self a }
    {
        match self {
            Step::Offset(by) => by[a].is_some(),
            Step::Scale(by) => by[a].is_some(),
            Step::Mirror(named) => named[a],
            Step::Turn(plane, _) => a == first_axis(plane) || a == second_axis(plane),
        }
    }

    /// The axes that the step names; a turn's are both its axes.
    pub fn touched(&self) -> [bool; 3]
        ensures { result ≡ touches self.now 0 ∷ touches self.now 1 ∷ touches self.now 2 ∷ [] }
    {
        std::array::from_fn(|a| self.touches(a))
    }
}

impl Chain {
    fn touches(&self, a: usize) -> bool
        requires { a < 3 }
        ensures { result ≡ touched_at (steps_of self.now) a }
    {
        self.steps().iter().any(|step| step.touches(a))
    }

    /// The axes that some step touches.
    pub fn touched(&self) -> [bool; 3]
        ensures { result ≡ all_touched (steps_of self.now) }
    {
        std::array::from_fn(|a| self.touches(a))
    }
}
