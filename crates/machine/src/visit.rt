// Several moves of any end, one after another.
ghost use Rattle.std.specs.Prelude.{◌≡◌};
ghost use Rattle.machine.specs.Visits.{Visited};

use crate::end::MachineEnd;
use units::axis::Point;
use units::fault::Fault;

/// How many moves were taken, and what ended the visit: the fault of the first move that was declined, or none.
#[derive(Clone, Copy)]
pub struct Visit {
    pub taken: usize,
    pub end: Result<(), Fault>,
}

/// Moves the end to each point in turn, until one is declined.
pub fn visit_all<E: MachineEnd>(end: &mut E, points: &[Point]) -> Visit
    ensures { Visited (E.meaning end.old) points.now result (E.meaning end.new) }
{
    for (taken, to) in points.iter().enumerate() {
        if let Err(fault) = end.take_move(*to) {
            return Visit {
                taken,
                end: Err(fault),
            };
        }
    }
    Visit {
        taken: points.len(),
        end: Ok(()),
    }
}
