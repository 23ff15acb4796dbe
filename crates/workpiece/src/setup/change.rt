// Frame instructions.
ghost use Rattle.std.specs.Prelude.{◌≡◌};
ghost use Rattle.workpiece.specs.Setup.{setup_of};
ghost use Rattle.workpiece.specs.Changes.{step_in, either_of, emptied, replaced_by, lengthened_by, changed, told_of, left_of};

use crate::axes::each_axis;
use crate::places::opened;
use crate::setup::Setup;
use blocks::types::{FrameChange, FrameStep};
use chains::step::Step;
use units::axis::Plane;
use units::fault::Fault;

// A programmed step in the plane that is in force; no `From`, since it takes the plane.
fn step_in(plane: Plane, step: FrameStep) -> Step
    ensures { result ≡ step_in plane step }
{
    match step {
        FrameStep::Offset(by) => Step::Offset(by),
        FrameStep::Turn(angle) => Step::Turn(plane, angle),
        FrameStep::Scale(by) => Step::Scale(by),
        FrameStep::Mirror(named) => Step::Mirror(named),
    }
}

fn either(a: [bool; 3], b: [bool; 3]) -> [bool; 3]
    ensures { result ≡ either_of a b }
{
    each_axis(a, b, |a, b| a || b)
}

impl Setup {
    fn empty_chain(&mut self)
        ensures { setup_of self.new ≡ emptied (setup_of self.old) }
    {
        self.values = opened(self.frames.chain.touched(), self.values);
        self.frames.chain.clear();
    }

    fn replace_chain(&mut self, step: Step)
        ensures { setup_of self.new ≡ replaced_by (setup_of self.old) step }
    {
        let touched = either(self.frames.chain.touched(), step.touched());
        self.values = opened(touched, self.values);
        self.frames.chain.replace(step);
    }

    fn lengthen_chain(&mut self, step: Step) -> Result<(), Fault>
        ensures told { result ≡ told_of (lengthened_by (setup_of self.old) step) }
        ensures left { setup_of self.new ≡ left_of (setup_of self.old) (lengthened_by (setup_of self.old) step) }
    {
        self.frames.chain.append(step)?;
        self.values = opened(step.touched(), self.values);
        Ok(())
    }

    /// A frame instruction: the chain after it, and the axes that it opens. A ninth step gets 10 and changes nothing.
    pub fn change_frame(&mut self, change: FrameChange) -> Result<(), Fault>
        ensures told { result ≡ told_of (changed (setup_of self.old) change) }
        ensures left { setup_of self.new ≡ left_of (setup_of self.old) (changed (setup_of self.old) change) }
    {
        let plane = self.modes.plane;
        match change {
            FrameChange::Empty => self.empty_chain(),
            FrameChange::Replace(step) => self.replace_chain(step_in(plane, step)),
            FrameChange::Append(step) => self.lengthen_chain(step_in(plane, step))?,
        }
        Ok(())
    }
}
