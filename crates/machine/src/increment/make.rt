// Making an increment.
ghost use Rattle.std.specs.Prelude.{◌≡◌};
ghost use Rattle.machine.specs.Made.{MadeWhere};
ghost use Rattle.machine.specs.Ranges.{increment_fits};

use crate::increment::Increment;
use units::fault::Fault;

impl Increment {
    pub const LONGEST: u32 = 100_000;

    /// `Fault::Argument` where it is not 1 to 100,000 units.
    #[tactic(auto, unfolding(crate::specs::Ranges::increment_fits))]
    pub fn new(units: u32) -> Result<Increment, Fault>
        ensures { MadeWhere (increment_fits units) (λ i. i.units ≡ units) result }
    {
        if !(1..=Increment::LONGEST).contains(&units) {
            return Err(Fault::Argument);
        }
        Ok(Increment { units })
    }
}
