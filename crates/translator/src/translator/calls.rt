// Making a translator, offset entries, reset and readings.
ghost use Rattle.std.specs.Prelude.{◌≡◌, ℤ};
ghost use Rattle.translator.specs.State.{state_of, still, widest, opened, Tells};
ghost use Rattle.translator.specs.Work.{entered, afresh, replied, left_by};

use super::Translator;
use super::block_calls::still_at;
use crate::reply::{Reading, Reply};
use machine::area::WorkArea;
use machine::bounds::Bounds;
use machine::end::MachineEnd;
use machine::position::held_position;
use units::axis::Point;
use units::fault::Fault;
use units::quantity::Tolerance;
use workpiece::setup::Setup;

fn widest_area() -> Bounds
    ensures { result ≡ widest }
{
    Bounds {
        lower: Point {
            x: -2_000_000_000,
            y: -2_000_000_000,
            z: -2_000_000_000,
        },
        upper: Point {
            x: 2_000_000_000,
            y: 2_000_000_000,
            z: 2_000_000_000,
        },
    }
}

impl<E: MachineEnd> Translator<E> {
    /// A translator over an end, with a work area as wide as can be on top of it.
    pub fn new(end: E, tolerance: Tolerance) -> Translator<E>
        ensures { state_of E.meaning result ≡ opened (E.meaning end) tolerance }
    {
        let held = held_position(&end);
        Translator {
            pile: WorkArea::over(widest_area(), end),
            setup: Setup::new(tolerance, held),
        }
    }

    /// Targets with spreads, what the end holds, and the chain.
    pub fn read(&self) -> Reading
        ensures { Tells (state_of E.meaning self.now) result }
    {
        Reading {
            image: self.setup.image,
            held: held_position(&self.pile),
            chain: self.setup.frames.chain,
        }
    }

    /// The targets and spreads as a reply that moved nothing.
    pub fn reply(&self) -> Reply
        ensures { result ≡ still (state_of E.meaning self.now).setup }
    {
        still_at(&self.setup)
    }

    /// The pile, for questions.
    pub fn pile(&self) -> &WorkArea<E>
        ensures { result.now ≡ self.now.pile }
    {
        &self.pile
    }

    /// The offset of a settable frame, 1 to 6; a number out of range gets 17.
    pub fn enter(&mut self, frame: i64, offset: Point) -> Result<Reply, Fault>
        ensures told { result ≡ replied (entered (state_of E.meaning self.old) frame offset) }
        ensures left { state_of E.meaning self.new ≡ left_by (state_of E.meaning self.old) (entered (state_of E.meaning self.old) frame offset) }
    {
        self.setup.enter(frame, offset)?;
        Ok(still_at(&self.setup))
    }

    /// Empties the chain, puts the starting functions back, opens all axes, and lets a programme begin anew.
    pub fn reset(&mut self) -> Reply
        ensures told { result ≡ (afresh (state_of E.meaning self.old)).reply }
        ensures left { state_of E.meaning self.new ≡ (afresh (state_of E.meaning self.old)).left }
    {
        self.setup.reset();
        still_at(&self.setup)
    }
}
