// Making a count end, and its moves.
ghost use Rattle.std.specs.Prelude.{◌≡◌};
ghost use Rattle.machine.specs.Made.{MadeWhere};
ghost use Rattle.machine.specs.Count.{increments_fit, lengths, count_meaning, no_counts};
ghost use Rattle.machine.specs.Owed.{count_sound};

use crate::bounds::Bounds;
use crate::count::CountEnd;
use crate::count::rounding::lower_counts;
use crate::end::MachineEnd;
use crate::increment::Increment;
use crate::motors::{Counts, Increments};
use units::axis::{Axis, ByAxis, Point, Side};
use units::fault::Fault;

impl CountEnd {
    /// At 0, 0, 0; `Fault::Argument` where an increment is not 1 to 100,000.
    #[tactic(auto, using(crate::specs::Counts::start_within), unfolding(crate::specs::Count::increments_fit))]
    pub fn new(increments: Increments, bounds: Bounds) -> Result<CountEnd, Fault>
        ensures { MadeWhere (increments_fit increments) (λ e. count_meaning (lengths e.increments) e.bounds e.counts ≡ count_meaning increments bounds no_counts) result }
    {
        // By name, as `ByAxis` says.
        let increments = ByAxis {
            x: Increment::new(increments.x)?,
            y: Increment::new(increments.y)?,
            z: Increment::new(increments.z)?,
        };
        Ok(CountEnd {
            bounds,
            increments,
            counts: Counts::default(),
        })
    }
}

// `ask_move`, `box_count` and `limit` are the scale end's: each is one line over the box, and a trait for ends of one box is no shorter.
impl MachineEnd for CountEnd {
    ghost meaning = { λ e. count_meaning (lengths e.increments) e.bounds e.counts };

    ghost sound = { λ e. count_sound e.increments e.bounds e.counts e.placed };

    fn take_move(&mut self, to: Point) -> Result<(), Fault> {
        let to = self.bounds.admitted(to)?;
        self.counts = lower_counts(self.increments, to);
        Ok(())
    }

    fn ask_move(&self, to: Point) -> Result<(), Fault> {
        self.bounds.admit(to)
    }

    fn box_count(&self) -> u8 {
        1
    }

    fn limit(&self, level: usize, axis: u8, side: Side) -> Result<i64, Fault> {
        self.bounds.limit(level, axis, side)
    }

    fn increment(&self, axis: u8) -> Result<u32, Fault> {
        Ok(self.increments.on(Axis::try_from(axis)?).units)
    }

    fn held(&self, axis: u8) -> Result<i64, Fault> {
        let axis = Axis::try_from(axis)?;
        Ok(self.increments.on(axis).standing(self.counts.on(axis)))
    }
}
