// The answers of a job, gathered.
use crate::answers::{Declined, NotUnderstood};
use crate::convert::end_call;
use crate::script_lines::ScriptLine;
use script::call::Call;
use std::alloc::{AllocError, Global};
use std::fmt;
use units::fault::Fault;

/// What is written of a job, a line to each answer.
#[derive(Drop)]
pub struct Report {
    text: String,
}

impl Report {
    pub fn new(heap: Global) -> Report {
        Report {
            text: String::new(heap),
        }
    }

    /// Writes a line.
    pub fn say<D: fmt::Display + Drop>(&mut self, answer: D) -> Result<(), AllocError> {
        self.text.writeln(answer)
    }

    /// Writes what a call is answered, or why it is declined.
    pub(crate) fn answer<D: fmt::Display + Drop>(
        &mut self,
        answer: Result<D, Fault>,
    ) -> Result<(), AllocError> {
        match answer {
            Ok(answer) => self.say(answer),
            Err(fault) => self.say(Declined(fault)),
        }
    }

    /// Answers a line that does nothing where it stands: an end that is not made, or a call at the wrong time.
    pub(crate) fn say_aside(&mut self, line: ScriptLine) -> Result<(), AllocError> {
        if let Some(Call::Rolls(_)) = line.call {
            return Ok(());
        }
        match end_call(line.call).and_then(|end| end.err()) {
            Some(fault) => self.say(Declined(fault)),
            None => self.say(NotUnderstood { line: line.number }),
        }
    }

    pub fn into_text(self) -> String {
        self.text
    }
}
