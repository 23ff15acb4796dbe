// The lines between an end and its translator.
use crate::answers::Tells;
use crate::convert::{bounds, tolerance};
use crate::job::{Job, Rest};
use crate::script_lines::ScriptLine;
use machine::area::WorkArea;
use machine::bounds::Bounds;
use machine::end::MachineEnd;
use questions::question::{Told, ask};
use script::call::Call;
use std::alloc::AllocError;
use std::fmt;
use units::fault::Fault;
use units::quantity::Tolerance;

/// What a call puts on an end.
#[derive(Clone, Copy)]
enum Layer {
    Area(Bounds),
    Translator(Tolerance),
}

impl fmt::Display for Layer {
    fn fmt<W: fmt::Write>(&self, f: &mut fmt::Formatter<W>) -> fmt::Result {
        f.write_str(match self {
            Layer::Area(_) => "area made",
            Layer::Translator(_) => "translator made",
        })
    }
}

// What a call puts on an end, or why it puts nothing; none where it is another call. `more` tells whether another area may come.
fn layer_call(call: Option<Call>, more: bool) -> Option<Result<Layer, Fault>> {
    match call? {
        Call::Area(limits) if more => Some(bounds(limits).map(Layer::Area)),
        Call::New { tolerance: units } => Some(tolerance(units).map(Layer::Translator)),
        _ => None,
    }
}

impl Job {
    fn work_line<E: MachineEnd>(
        &mut self,
        end: &mut E,
        line: ScriptLine,
    ) -> Result<(), AllocError> {
        match line.call {
            Some(Call::Move(to)) => {
                let told = end.take_move(to).map(|()| Told::Taken);
                self.report.answer(told.map(Tells))
            }
            Some(Call::Ask(question)) => self.report.answer(ask(end, question).map(Tells)),
            _ => self.report.say_aside(line),
        }
    }

    // Works the lines up to one that puts a layer on the end: that layer and the lines behind it, or none where no line does.
    fn work_lines<'s, 'a, E: MachineEnd>(
        &mut self,
        end: &mut E,
        lines: &'s [ScriptLine<'a>],
        more: bool,
    ) -> Result<Option<(Layer, &'s [ScriptLine<'a>])>, AllocError> {
        for (i, line) in lines.iter().enumerate() {
            let Some(made) = layer_call(line.call, more) else {
                self.work_line(end, *line)?;
                continue;
            };
            self.report.answer(made)?;
            if let Ok(layer) = made {
                return Ok(Some((layer, &lines[i + 1..])));
            }
        }
        Ok(None)
    }

    // The end with two areas on it: no third may come, so nothing is worked over it.
    fn work_under_two<E: MachineEnd + Drop>(
        &mut self,
        mut end: E,
        lines: &[ScriptLine],
    ) -> Result<Rest, AllocError> {
        match self.work_lines(&mut end, lines, false)? {
            Some((Layer::Translator(tolerance), rest)) => self.work_shift(end, tolerance, rest),
            _ => Ok(Rest::Left),
        }
    }

    // The end with room for another area on it; `over` works the lines behind that area.
    fn work_over<E, F>(
        &mut self,
        mut end: E,
        lines: &[ScriptLine],
        over: F,
    ) -> Result<Rest, AllocError>
    where
        E: MachineEnd + Drop,
        F: FnOnce(&mut Job, WorkArea<E>, &[ScriptLine]) -> Result<Rest, AllocError> + Drop,
        requires { F.IsAlwaysCallable over }
    {
        match self.work_lines(&mut end, lines, true)? {
            Some((Layer::Area(bounds), rest)) => over(self, WorkArea::over(bounds, end), rest),
            Some((Layer::Translator(tolerance), rest)) => self.work_shift(end, tolerance, rest),
            None => Ok(Rest::Left),
        }
    }

    /// Works the lines behind the one that made the end.
    pub(crate) fn work_end<E: MachineEnd + Drop>(
        &mut self,
        end: E,
        lines: &[ScriptLine],
    ) -> Result<Rest, AllocError> {
        self.report.say("end made")?;
        self.work_over(end, lines, |job, end, lines| {
            job.work_over(end, lines, |job, end, lines| job.work_under_two(end, lines))
        })
    }
}
