// Making a scale end, and its moves.
ghost use Rattle.std.specs.Prelude.{◌≡◌, true};
ghost use Rattle.machine.specs.Made.{MadeWhere};
ghost use Rattle.machine.specs.Ranges.{within, increment_fits};
ghost use Rattle.machine.specs.Meaning.{each, origin};
ghost use Rattle.machine.specs.Admitted.{coordinates};
ghost use Rattle.machine.specs.Scale.{nearest_multiple, scale_meaning};
ghost use Rattle.machine.specs.Owed.{scale_sound};

use crate::bounds::Bounds;
use crate::coordinate::Coordinate;
use crate::end::MachineEnd;
use crate::increment::Increment;
use crate::scale::ScaleEnd;
use units::axis::{Axis, ByAxis, Point, Side};
use units::division::div_nearest;
use units::fault::Fault;
use units::quantity::{Dividend, Divisor};

impl ScaleEnd {
    /// At 0, 0, 0; `Fault::Argument` where the increment is not 1 to 100,000.
    #[tactic(auto, using(crate::specs::RangesLemmas::origin_within))]
    pub fn new(increment: u32, bounds: Bounds) -> Result<ScaleEnd, Fault>
        ensures { MadeWhere (increment_fits increment) (λ e. scale_meaning e.increment.units e.bounds e.position ≡ scale_meaning increment bounds origin) result }
    {
        Ok(ScaleEnd {
            bounds,
            increment: Increment::new(increment)?,
            position: Point::default(),
        })
    }
}

impl Increment {
    fn multiple(self, v: Coordinate) -> i64
        ensures { result ≡ nearest_multiple self.units v.units }
    {
        div_nearest(Dividend { value: v.units }, Divisor { value: self.units })
            * i64::from(self.units)
    }

    // By name, as `ByAxis` says.
    fn multiples(self, to: ByAxis<Coordinate>) -> Point
        ensures value { result ≡ each (λ a. nearest_multiple self.units) (coordinates to) }
        ensures bound { within 2000050000 result ≡ true }
    {
        Point {
            x: self.multiple(to.x),
            y: self.multiple(to.y),
            z: self.multiple(to.z),
        }
    }
}

// The one-line calls are the count end's: see there.
impl MachineEnd for ScaleEnd {
    ghost meaning = { λ e. scale_meaning e.increment.units e.bounds e.position };

    ghost sound = { λ e. scale_sound e.increment e.bounds e.position e.placed };

    fn take_move(&mut self, to: Point) -> Result<(), Fault> {
        let to = self.bounds.admitted(to)?;
        self.position = self.increment.multiples(to);
        Ok(())
    }

    fn ask_move(&self, to: Point) -> Result<(), Fault> {
        self.bounds.admit(to)
    }

    fn box_count(&self) -> u8 {
        1
    }

    fn limit(&self, level: usize, axis: u8, side: Side) -> Result<i64, Fault> {
        self.bounds.limit(level, axis, side)
    }

    fn increment(&self, axis: u8) -> Result<u32, Fault> {
        Axis::try_from(axis)?;
        Ok(self.increment.units)
    }

    fn held(&self, axis: u8) -> Result<i64, Fault> {
        Ok(self.position.on(Axis::try_from(axis)?))
    }
}
