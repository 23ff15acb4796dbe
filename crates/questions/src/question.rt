// Questions to a machine end.
ghost use Rattle.std.specs.Prelude.{◌≡◌, ℕ, ℤ, pos, ◌<ℤ◌, MatchResult};
ghost use Rattle.units.specs.Axes.{axis_of};
ghost use Rattle.units.specs.declared.fault.Fault.TheVariants.{Argument};
ghost use Rattle.questions.specs.Questions.{axis_told, told_of};

use machine::end::MachineEnd;
use units::axis::{Axis, Point, Side};
use units::fault::Fault;

/// A question, with its numbers as they come.
#[derive(Clone, Copy)]
pub enum Question {
    Boxes,
    Limit { level: i64, axis: i64, side: Side },
    Increment { axis: i64 },
    Held { axis: i64 },
    Move(Point),
}

/// What an end tells.
#[derive(Clone, Copy)]
pub enum Told {
    Boxes(u8),
    Limit(i64),
    Increment(u32),
    Held(i64),
    /// The move would be taken.
    Taken,
}

fn known_axis(axis: i64) -> Result<Axis, Fault>
    ensures { result ≡ axis_of (axis_told axis) }
{
    Axis::try_from(u8::try_from(axis).map_err(|_| Fault::Argument)?)
}

fn box_level(level: i64) -> Result<usize, Fault>
    ensures { MatchResult result (λ n. level ≡ pos n) (λ f. (level <ℤ pos 0) × (f ≡ Argument)) }
{
    usize::try_from(level).map_err(|_| Fault::Argument)
}

/// Asks any end; a question changes nothing. An axis or a level that is not there gets 17.
pub fn ask<E: MachineEnd>(end: &E, question: Question) -> Result<Told, Fault>
    ensures { result ≡ told_of (E.meaning end.now) question }
{
    match question {
        Question::Boxes => Ok(Told::Boxes(end.box_count())),
        Question::Limit { level, axis, side } => end
            .limit(box_level(level)?, known_axis(axis)?.number(), side)
            .map(Told::Limit),
        Question::Increment { axis } => end
            .increment(known_axis(axis)?.number())
            .map(Told::Increment),
        Question::Held { axis } => end.held(known_axis(axis)?.number()).map(Told::Held),
        Question::Move(to) => end.ask_move(to).map(|()| Told::Taken),
    }
}
