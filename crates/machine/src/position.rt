// The three coordinates that an end holds.
ghost use Rattle.std.specs.Prelude.{◌≡◌};
ghost use Rattle.machine.specs.Meaning.{at};

use crate::end::MachineEnd;
use units::axis::{Axis, Point};

// No axis is unknown to an end, so the question is always answered.
fn held_on<E: MachineEnd>(end: &E, axis: Axis) -> i64
    ensures { result ≡ at (E.meaning end.now).held axis }
{
    end.held(axis.number()).unwrap()
}

/// The position that an end holds.
// By name, as `ByAxis` says.
pub fn held_position<E: MachineEnd>(end: &E) -> Point
    ensures { result ≡ (E.meaning end.now).held }
{
    Point {
        x: held_on(end, Axis::X),
        y: held_on(end, Axis::Y),
        z: held_on(end, Axis::Z),
    }
}
