// Working a list of calls over a new translator.
ghost use Rattle.std.specs.Prelude.{◌≡◌, ◌≤◌, true, List, [], ◌∷◌, ◌++◌, length, is_ok, IfOk, vec_capacity};
ghost use Rattle.translator.specs.State.{state_of, opened, Tells};
ghost use Rattle.shifts.specs.Calls.{answer_to, left_after, Shown, Replied};
ghost use Rattle.shifts.specs.Law.{Law};

use crate::call::{Answer, Call, Seen};
use machine::end::MachineEnd;
use questions::question::ask;
use std::alloc::AllocError;
use translator::reply::Reading;
use translator::translator::Translator;
use units::fault::Fault;
use units::quantity::Tolerance;

/// A worked shift: the translator as it stands, what was told at the start, and what was seen of each call.
#[derive(Drop)]
pub struct Worked<E> {
    pub translator: Translator<E>,
    pub opening: Reading,
    pub seen: Vec<Seen>,
}

fn answer<E: MachineEnd>(translator: &mut Translator<E>, call: &Call) -> Result<Answer, Fault>
    ensures told { result ≡ answer_to (state_of E.meaning translator.old) call.now }
    ensures left { state_of E.meaning translator.new ≡ left_after (state_of E.meaning translator.old) call.now }
{
    match call {
        Call::Block(bytes) => translator.block(bytes).map(Answer::Replied),
        Call::Entry { frame, offset } => translator.enter(*frame, *offset).map(Answer::Replied),
        Call::Reset => Ok(Answer::Replied(translator.reset())),
        Call::Read => Ok(Answer::Replied(translator.reply())),
        Call::Ask(question) => ask(translator.pile(), *question).map(Answer::Told),
    }
}

/// Makes one call.
pub fn make_call<E: MachineEnd>(translator: &mut Translator<E>, call: &Call) -> Seen
    ensures shown { Shown (state_of E.meaning translator.old) call.now result }
    ensures left { state_of E.meaning translator.new ≡ left_after (state_of E.meaning translator.old) call.now }
{
    let answer = answer(translator, call);
    let reading = translator.read();
    Seen { answer, reading }
}

// Makes the calls in turn; fails only where the row has fewer places than there are calls and finds no more memory.
fn work<E: MachineEnd>(
    translator: &mut Translator<E>,
    calls: &[Call],
    row: Vec<Seen>,
) -> Result<Vec<Seen>, AllocError>
    ensures replies { IfOk result (λ seen. Replied (state_of E.meaning translator.old) calls.now seen.items (state_of E.meaning translator.new)) }
    ensures room { length calls.now ≤ vec_capacity row → is_ok result ≡ true }
{
    let mut seen = row;
    seen.clear();
    for call in calls {
        seen.push(make_call(translator, call))?;
    }
    Ok(seen)
}

/// A whole shift over an end: what was told at the start and after each call. What is seen goes into the row, whose own items are
/// let go; where it has a place for each call, the shift cannot fail.
pub fn shift<E: MachineEnd + Drop>(
    end: E,
    tolerance: Tolerance,
    calls: &[Call],
    row: Vec<Seen>,
) -> Result<Worked<E>, AllocError>
    ensures room { length calls.now ≤ vec_capacity row → is_ok result ≡ true }
    ensures opening { IfOk result (λ w. Tells (opened (E.meaning end) tolerance) w.opening) }
    ensures replies { IfOk result (λ w. Replied (opened (E.meaning end) tolerance) calls.now w.seen.items (state_of E.meaning w.translator)) }
    ensures law { IfOk result (λ w. Law (E.meaning end) tolerance calls.now w.opening w.seen.items) }
{
    let mut translator = Translator::new(end, tolerance);
    let opening = translator.read();
    let seen = work(&mut translator, calls, row)?;
    Ok(Worked {
        translator,
        opening,
        seen,
    })
}
