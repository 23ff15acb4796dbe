// A whole job script.
ghost use Rattle.std.specs.Prelude.{◌≡◌};
ghost use Rattle.jobs.specs.Ends.{line_makes_end};

use crate::check::check;
use crate::convert::{MadeEnd, end_call};
use crate::report::Report;
use crate::script_lines::{ScriptLine, read_script};
use std::alloc::{AllocError, Global};

/// A job at work: where its lists are made, and its answers so far.
#[derive(Drop)]
pub(crate) struct Job {
    pub(crate) heap: Global,
    pub(crate) report: Report,
}

/// Whether the lines behind are left, or were worked as a programme text.
// No bool and no `ControlFlow`: these two names say what is meant.
#[derive(Clone, Copy, PartialEq, Eq)]
pub(crate) enum Rest {
    Left,
    Worked,
}

fn makes_end(line: &ScriptLine) -> bool
    ensures { result ≡ line_makes_end line.now.call }
{
    end_call(line.call).is_some_and(|end| end.is_ok())
}

impl Job {
    // Works a line that makes an end, and those behind it; or answers lines that no end stands before.
    fn work_section(&mut self, lines: &[ScriptLine]) -> Result<Rest, AllocError> {
        if let [first, behind @ ..] = lines {
            match end_call(first.call) {
                Some(Ok(MadeEnd::Scale(end))) => return self.work_end(end, behind),
                Some(Ok(MadeEnd::Count(end))) => return self.work_end(end, behind),
                _ => {}
            }
        }
        for line in lines {
            self.report.say_aside(*line)?;
        }
        Ok(Rest::Left)
    }

    // A section begins at each line that makes an end.
    fn work_all(&mut self, lines: &[ScriptLine]) -> Result<Rest, AllocError> {
        for section in lines.chunk_by(|_, next| !makes_end(next)) {
            if self.work_section(section)? == Rest::Worked {
                return Ok(Rest::Worked);
            }
        }
        Ok(Rest::Left)
    }
}

/// Works a job script: the answers to its lines.
pub fn run(heap: Global, input: &[u8]) -> Result<String, AllocError> {
    let script = read_script(heap, input)?;
    let mut job = Job {
        heap,
        report: Report::new(heap),
    };
    let rest = job.work_all(script.lines.as_slice())?;
    if let (Rest::Left, Some(text)) = (rest, script.checked) {
        check(text, &mut job.report)?;
    }
    Ok(job.report.into_text())
}
