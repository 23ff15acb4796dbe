// A text as a whole shift.
ghost use Rattle.std.specs.Prelude.{◌≡◌};
ghost use Rattle.translator.specs.State.{state_of};
ghost use Rattle.rolls.specs.Rolls.{roll_of};
ghost use Rattle.programmes.specs.Text.{ShiftWorked};

use crate::records::{DeclineRecord, MoveRecord};
use crate::work::work_text;
use machine::end::MachineEnd;
use rolls::roll::Roll;
use translator::reply::Reading;
use translator::translator::Translator;
use units::fault::Fault;
use units::quantity::Tolerance;

/// A worked text: the translator as it stands, what was told at the start, and how the work ended.
#[derive(Drop)]
pub struct WorkedText<E> {
    pub translator: Translator<E>,
    pub opening: Reading,
    pub told: Result<(), Fault>,
}

/// Works a text over a new translator.
pub fn shift_text<E: MachineEnd>(
    end: E,
    tolerance: Tolerance,
    text: &[u8],
    moves: &mut Roll<MoveRecord>,
    declines: &mut Roll<DeclineRecord>,
) -> WorkedText<E>
    ensures worked { ShiftWorked (E.meaning end) tolerance text.now (roll_of moves.old) (roll_of declines.old) result.opening result.told (state_of E.meaning result.translator) (roll_of moves.new) (roll_of declines.new) }
    ensures lent { moves.new.places.ghost_name ≡ moves.old.places.ghost_name }
    ensures also { declines.new.places.ghost_name ≡ declines.old.places.ghost_name }
{
    let mut translator = Translator::new(end, tolerance);
    let opening = translator.read();
    let told = work_text(&mut translator, text, moves, declines);
    WorkedText {
        translator,
        opening,
        told,
    }
}
