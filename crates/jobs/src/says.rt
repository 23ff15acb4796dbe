// What is written of a right block.
use crate::answers::{Letters, Values};
use blocks::types::{Block, FrameChange, FrameStep, Ordinary, Selections};
use std::fmt;
use units::axis::Side;

/// A step after its name, which begins with A where it is appended.
#[derive(Clone, Copy)]
struct Instruction {
    additive: bool,
    step: FrameStep,
}

impl fmt::Display for Instruction {
    fn fmt<W: fmt::Write>(&self, f: &mut fmt::Formatter<W>) -> fmt::Result {
        let a = if self.additive { "A" } else { "" };
        match self.step {
            FrameStep::Offset(values) => {
                let values = Values::from(values);
                write!(f, " {a}TRANS{values}")
            }
            FrameStep::Turn(angle) => {
                let ticks = angle.ticks;
                write!(f, " {a}ROT RPL {ticks}")
            }
            FrameStep::Scale(values) => {
                let values = Values::from(values);
                write!(f, " {a}SCALE{values}")
            }
            FrameStep::Mirror(axes) => {
                let axes = Letters::spaced(axes);
                write!(f, " {a}MIRROR{axes}")
            }
        }
    }
}

/// A selected function after a space, or nothing.
#[derive(Clone, Copy, Drop)]
struct Spaced<T> {
    function: Option<T>,
}

impl<T: fmt::Display> fmt::Display for Spaced<T> {
    fn fmt<W: fmt::Write>(&self, f: &mut fmt::Formatter<W>) -> fmt::Result {
        match &self.function {
            Some(function) => write!(f, " {function}"),
            None => Ok(()),
        }
    }
}

/// The functions that a block selects, each after a space.
#[derive(Clone, Copy)]
struct Selected(Selections);

impl fmt::Display for Selected {
    fn fmt<W: fmt::Write>(&self, f: &mut fmt::Formatter<W>) -> fmt::Result {
        let motion = Spaced {
            function: self.0.motion,
        };
        let plane = Spaced {
            function: self.0.plane,
        };
        let settable = Spaced {
            function: self.0.settable,
        };
        let unit = Spaced {
            function: self.0.unit,
        };
        let distance = Spaced {
            function: self.0.distance,
        };
        write!(f, "{motion}{plane}{settable}{unit}{distance}")
    }
}

fn selects(s: Selections) -> bool {
    s.motion.is_some()
        || s.plane.is_some()
        || s.settable.is_some()
        || s.unit.is_some()
        || s.distance.is_some()
}

// Whether a block says anything: passed-over words alone say nothing.
fn says_any(o: Ordinary) -> bool {
    selects(o.selections) || o.machine.is_some() || o.first.is_some() || o.ends
}

/// A block without an instruction.
#[derive(Clone, Copy)]
struct Plain(Ordinary);

impl fmt::Display for Plain {
    fn fmt<W: fmt::Write>(&self, f: &mut fmt::Formatter<W>) -> fmt::Result {
        if !says_any(self.0) {
            return f.write_str(" -");
        }
        let selected = Selected(self.0.selections);
        let machine = if self.0.machine.is_some() { " G53" } else { "" };
        let words = Values::from(self.0.words);
        let ends = if self.0.ends { " ends" } else { "" };
        write!(f, "{selected}{machine}{words}{ends}")
    }
}

/// What a right block says, each part after a space.
#[derive(Clone, Copy)]
pub struct Says(pub Block);

impl fmt::Display for Says {
    fn fmt<W: fmt::Write>(&self, f: &mut fmt::Formatter<W>) -> fmt::Result {
        match self.0 {
            Block::Frame {
                change: FrameChange::Empty,
                ..
            } => write!(f, " chain emptied"),
            Block::Frame {
                change: FrameChange::Replace(step),
                ..
            } => f.write(Instruction {
                additive: false,
                step,
            }),
            Block::Frame {
                change: FrameChange::Append(step),
                ..
            } => f.write(Instruction {
                additive: true,
                step,
            }),
            Block::Limit { side, values, .. } => {
                // Written here alone.
                let name = match side {
                    Side::Lower => "G25",
                    Side::Upper => "G26",
                };
                let values = Values::from(values);
                write!(f, " {name}{values}")
            }
            Block::Ordinary(ordinary) => f.write(Plain(ordinary)),
        }
    }
}
