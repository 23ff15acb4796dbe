// Working a text.
ghost use Rattle.std.specs.Prelude.{◌≡◌, ℕ, false};
ghost use Rattle.translator.specs.State.{state_of};
ghost use Rattle.shifts.specs.Calls.{answer_of};
ghost use Rattle.rolls.specs.Rolls.{roll_of, is_full, extended};
ghost use Rattle.programmes.specs.Text.{any_moved, move_of, decline_of, TextWorked};

use crate::records::{DeclineRecord, MoveRecord};
use lines::reader::LineReader;
use machine::end::MachineEnd;
use rolls::roll::Roll;
use translator::reply::Reply;
use translator::translator::Translator;
use units::fault::Fault;

/// How many bytes a text may have.
pub const LONGEST: usize = 65_536;

// Files what a block was answered; both rolls have a place left.
// No struct of the two rolls: each caller has two, and one would be made for this call alone.
fn file(
    reply: Result<Reply, Fault>,
    start: usize,
    moves: &mut Roll<MoveRecord>,
    declines: &mut Roll<DeclineRecord>,
)
    requires { (is_full (roll_of moves.old) ≡ false) × (is_full (roll_of declines.old) ≡ false) }
    ensures moves { roll_of moves.new ≡ extended (roll_of moves.old) (move_of start (answer_of reply)) }
    ensures declines { roll_of declines.new ≡ extended (roll_of declines.old) (decline_of start (answer_of reply)) }
    ensures lent { moves.new.places.ghost_name ≡ moves.old.places.ghost_name }
    ensures also { declines.new.places.ghost_name ≡ declines.old.places.ghost_name }
{
    match reply {
        Ok(reply) => {
            if reply.moved.iter().any(|moved| *moved) {
                let told = reply.image;
                let _ = moves.append(MoveRecord { start, told });
            }
        }
        Err(told) => {
            let _ = declines.append(DeclineRecord { start, told });
        }
    }
}

/// Works a text line by line. Each accepted block that moved adds a record to the move roll, each declined one to the decline roll.
/// A text of more than 65,536 bytes gets 17; where one of the rolls is full before a next block, the work stops with 16 and that block's start.
pub fn work_text<E: MachineEnd>(
    translator: &mut Translator<E>,
    text: &[u8],
    moves: &mut Roll<MoveRecord>,
    declines: &mut Roll<DeclineRecord>,
) -> Result<(), Fault>
    ensures worked { TextWorked (state_of E.meaning translator.old) text.now (roll_of moves.old) (roll_of declines.old) result (state_of E.meaning translator.new) (roll_of moves.new) (roll_of declines.new) }
    ensures lent { moves.new.places.ghost_name ≡ moves.old.places.ghost_name }
    ensures also { declines.new.places.ghost_name ≡ declines.old.places.ghost_name }
{
    if text.len() > LONGEST {
        return Err(Fault::Argument);
    }
    for line in LineReader::new(text) {
        if moves.is_full() || declines.is_full() {
            return Err(Fault::RollFull { start: line.start });
        }
        let reply = translator.block(line.bytes);
        file(reply, line.start, moves, declines);
    }
    Ok(())
}
