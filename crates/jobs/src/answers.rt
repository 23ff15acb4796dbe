// What is written of each answer.
use chains::step::Step;
use frames::image::Image;
use questions::question::Told;
use std::fmt;
use translator::reply::{Reading, Reply};
use units::axis::Point;
use units::fault::{Decline, Fault};
use units::quantity::{Factor, Length};

/// A declined call.
#[derive(Clone, Copy)]
pub struct Declined(pub Fault);

impl fmt::Display for Declined {
    fn fmt<W: fmt::Write>(&self, f: &mut fmt::Formatter<W>) -> fmt::Result {
        let Decline {
            number,
            layer,
            place,
            axis,
            step,
            level,
        } = self.0.decline();
        write!(
            f,
            "declined {number} at {place} axis {axis} step {step} level {level} layer {layer}"
        )
    }
}

/// What is said of the block that begins at a byte of its text.
#[derive(Clone, Copy, Drop)]
pub(crate) struct AtByte<D> {
    pub start: usize,
    pub said: D,
}

impl<D: fmt::Display> fmt::Display for AtByte<D> {
    fn fmt<W: fmt::Write>(&self, f: &mut fmt::Formatter<W>) -> fmt::Result {
        let start = self.start;
        let said = &self.said;
        write!(f, "byte {start} {said}")
    }
}

/// A line that is no call, or one at the wrong time.
#[derive(Clone, Copy)]
pub struct NotUnderstood {
    pub line: usize,
}

impl fmt::Display for NotUnderstood {
    fn fmt<W: fmt::Write>(&self, f: &mut fmt::Formatter<W>) -> fmt::Result {
        let line = self.line;
        write!(f, "line {line} not understood")
    }
}

/// What an end tells.
#[derive(Clone, Copy)]
pub struct Tells(pub Told);

impl fmt::Display for Tells {
    fn fmt<W: fmt::Write>(&self, f: &mut fmt::Formatter<W>) -> fmt::Result {
        match self.0 {
            Told::Boxes(n) => write!(f, "boxes {n}"),
            Told::Limit(v) => write!(f, "limit {v}"),
            Told::Increment(n) => write!(f, "increment {n}"),
            Told::Held(v) => write!(f, "held {v}"),
            Told::Taken => write!(f, "taken"),
        }
    }
}

/// Three targets with their spreads.
#[derive(Clone, Copy)]
pub(crate) struct Targets(pub Image);

impl fmt::Display for Targets {
    fn fmt<W: fmt::Write>(&self, f: &mut fmt::Formatter<W>) -> fmt::Result {
        let [x, y, z] = self.0.at;
        let [sx, sy, sz] = self.0.spread;
        write!(f, "target {x} {y} {z} spread {sx} {sy} {sz}")
    }
}

/// The letters of some axes, each as `letters` writes it: whole texts, since a letter by itself costs more to write.
#[derive(Clone, Copy)]
pub(crate) struct Letters {
    pub axes: [bool; 3],
    pub letters: [&'static str; 3],
}

impl Letters {
    /// Each letter after a space.
    pub(crate) fn spaced(axes: [bool; 3]) -> Letters {
        Letters {
            axes,
            letters: [" X", " Y", " Z"],
        }
    }
}

impl fmt::Display for Letters {
    fn fmt<W: fmt::Write>(&self, f: &mut fmt::Formatter<W>) -> fmt::Result {
        for (letter, named) in self.letters.iter().zip(&self.axes) {
            if *named {
                f.write_str(letter)?;
            }
        }
        Ok(())
    }
}

/// What a block moved.
#[derive(Clone, Copy)]
pub struct Moved(pub Reply);

impl fmt::Display for Moved {
    fn fmt<W: fmt::Write>(&self, f: &mut fmt::Formatter<W>) -> fmt::Result {
        let none = if self.0.moved == [false; 3] { "-" } else { "" };
        let axes = Letters {
            axes: self.0.moved,
            letters: ["X", "Y", "Z"],
        };
        let targets = Targets(self.0.image);
        write!(f, "moved {none}{axes} {targets}")
    }
}

/// The first line of a reading.
#[derive(Clone, Copy)]
pub struct State(pub Reading);

impl fmt::Display for State {
    fn fmt<W: fmt::Write>(&self, f: &mut fmt::Formatter<W>) -> fmt::Result {
        let targets = Targets(self.0.image);
        let Point { x, y, z } = self.0.held;
        let count = self.0.chain.count;
        write!(f, "state {targets} held {x} {y} {z} chain {count}")
    }
}

/// The values of the named axes, each after a space and its letter.
#[derive(Clone, Copy)]
pub(crate) struct Values([Option<i64>; 3]);

impl From<[Option<Length>; 3]> for Values {
    fn from(lengths: [Option<Length>; 3]) -> Values {
        Values(lengths.map(|length| length.map(|length| length.units)))
    }
}

impl From<[Option<Factor>; 3]> for Values {
    fn from(factors: [Option<Factor>; 3]) -> Values {
        Values(factors.map(|factor| factor.map(|factor| i64::from(factor.parts))))
    }
}

impl fmt::Display for Values {
    fn fmt<W: fmt::Write>(&self, f: &mut fmt::Formatter<W>) -> fmt::Result {
        for (letter, value) in [" X ", " Y ", " Z "].iter().zip(&self.0) {
            if let Some(value) = value {
                f.write_str(letter)?;
                f.write(*value)?;
            }
        }
        Ok(())
    }
}

/// A step of the chain, with its number from 1 at the outermost.
#[derive(Clone, Copy)]
pub struct StepLine {
    pub number: usize,
    pub step: Step,
}

impl fmt::Display for StepLine {
    fn fmt<W: fmt::Write>(&self, f: &mut fmt::Formatter<W>) -> fmt::Result {
        let n = self.number;
        match self.step {
            Step::Offset(values) => {
                let values = Values::from(values);
                write!(f, "step {n} offset{values}")
            }
            Step::Scale(values) => {
                let values = Values::from(values);
                write!(f, "step {n} scale{values}")
            }
            Step::Mirror(axes) => {
                let axes = Letters::spaced(axes);
                write!(f, "step {n} mirror{axes}")
            }
            Step::Turn(plane, angle) => {
                let ticks = angle.ticks;
                write!(f, "step {n} turn {plane} {ticks}")
            }
        }
    }
}
