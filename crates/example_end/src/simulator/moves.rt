// The simulator's meaning and its moves.
ghost use Rattle.std.specs.Prelude.{◌≡◌};
ghost use Rattle.machine.specs.Meaning.{origin};
ghost use Rattle.example_end.specs.Simulated.{simulated};
ghost use Rattle.example_end.specs.Owed.{simulated_sound};

use crate::simulator::Simulator;
use machine::bounds::Bounds;
use machine::end::MachineEnd;
use units::axis::{Axis, Point, Side};
use units::fault::Fault;

impl Simulator {
    /// At 0, 0, 0.
    #[tactic(auto, using(machine::specs::RangesLemmas::origin_within))]
    pub fn new(bounds: Bounds) -> Simulator
        ensures { simulated result.bounds result.position ≡ simulated bounds origin }
    {
        Simulator {
            bounds,
            position: Point::default(),
        }
    }
}

// Three calls are one line over the box, as in every end of one box: a trait for such ends is no shorter.
impl MachineEnd for Simulator {
    ghost meaning = { λ e. simulated e.bounds e.position };

    ghost sound = { λ e. simulated_sound e.bounds e.position e.placed };

    fn take_move(&mut self, to: Point) -> Result<(), Fault> {
        self.ask_move(to)?;
        self.position = to;
        Ok(())
    }

    fn ask_move(&self, to: Point) -> Result<(), Fault> {
        self.bounds.admit(to)
    }

    fn box_count(&self) -> u8 {
        1
    }

    fn limit(&self, level: usize, axis: u8, side: Side) -> Result<i64, Fault> {
        self.bounds.limit(level, axis, side)
    }

    fn increment(&self, axis: u8) -> Result<u32, Fault> {
        Axis::try_from(axis)?;
        Ok(1)
    }

    fn held(&self, axis: u8) -> Result<i64, Fault> {
        Ok(self.position.on(Axis::try_from(axis)?))
    }
}
