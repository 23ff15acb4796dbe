// The lines behind `new`: a shift.
use crate::answers::{Declined, Moved, State, StepLine, Tells};
use crate::convert::shift_call;
use crate::job::{Job, Rest};
use crate::report::Report;
use crate::script_lines::ScriptLine;
use machine::end::MachineEnd;
use script::call::Call;
use shifts::call::{Answer, Call as ShiftCall, Seen};
use shifts::shift::shift;
use std::alloc::AllocError;
use translator::reply::{Reading, Reply};
use units::quantity::Tolerance;

impl Report {
    // The first line of a reading, and a line for each step of the chain.
    fn say_reading(&mut self, reading: Reading) -> Result<(), AllocError> {
        self.say(State(reading))?;
        for (i, step) in reading.chain.steps().iter().enumerate() {
            self.say(StepLine {
                number: i + 1,
                step: *step,
            })?;
        }
        Ok(())
    }

    fn say_reply(
        &mut self,
        call: ShiftCall,
        reply: Reply,
        reading: Reading,
    ) -> Result<(), AllocError> {
        match call {
            ShiftCall::Entry { .. } => self.say("entered"),
            ShiftCall::Reset => self.say("reset"),
            ShiftCall::Read => self.say_reading(reading),
            _ => self.say(Moved(reply)),
        }
    }

    fn say_seen(&mut self, call: ShiftCall, seen: Seen) -> Result<(), AllocError> {
        match seen.answer {
            Ok(Answer::Replied(reply)) => self.say_reply(call, reply, seen.reading),
            Ok(Answer::Told(told)) => self.say(Tells(told)),
            Err(fault) => self.say(Declined(fault)),
        }
    }

    // Answers the lines in their order. What was seen lies beside them, since a shift works a list of calls alone.
    fn say_all(&mut self, lines: &[ScriptLine], seen: &[Seen]) -> Result<(), AllocError> {
        let mut seen = seen.iter();
        for line in lines {
            match shift_call(line.call) {
                Some(call) => {
                    if let Some(seen) = seen.next() {
                        self.say_seen(call, *seen)?;
                    }
                }
                None => self.say_aside(*line)?,
            }
        }
        Ok(())
    }
}

impl Job {
    /// Works the lines as one shift over the end; a programme among them takes all that is behind it.
    pub(crate) fn work_shift<E: MachineEnd + Drop>(
        &mut self,
        end: E,
        tolerance: Tolerance,
        lines: &[ScriptLine],
    ) -> Result<Rest, AllocError> {
        let n = lines
            .iter()
            .position(|line| matches!(line.call, Some(Call::Programme)))
            .unwrap_or(lines.len());
        let (before, rest) = lines.split_at(n);
        let calls: Vec<ShiftCall> = before
            .iter()
            .filter_map(|line| shift_call(line.call))
            .collect(self.heap)?;
        let row = Vec::with_capacity(self.heap, calls.len())?;
        let mut worked = shift(end, tolerance, calls.as_slice(), row)?;
        self.report.say_all(before, worked.seen.as_slice())?;
        let Some(line) = rest.first() else {
            return Ok(Rest::Left);
        };
        self.work_programme(&mut worked.translator, line.behind, line.rolls)?;
        Ok(Rest::Worked)
    }
}
