// What a right block says. Values by axis stand in the order X, Y, Z.
pub use reader::functions::{Distance, LengthUnit, Motion, Settable};
use units::axis::{Plane, Side};
use units::quantity::{Angle, Factor, Length};

/// The modal functions that a block selects, by group.
#[derive(Clone, Copy, Default)]
pub struct Selections {
    pub motion: Option<Motion>,
    pub plane: Option<Plane>,
    pub settable: Option<Settable>,
    pub unit: Option<LengthUnit>,
    pub distance: Option<Distance>,
}

/// One step of the programmable frame; what is named for no axis is none.
// Not a step of the chain: its turn has no plane yet, and a step generic in what turns is no plainer.
#[derive(Clone, Copy)]
pub enum FrameStep {
    Offset([Option<Length>; 3]),
    Turn(Angle),
    Scale([Option<Factor>; 3]),
    Mirror([bool; 3]),
}

/// What a frame instruction does to the chain of steps.
#[derive(Clone, Copy)]
pub enum FrameChange {
    Empty,
    Replace(FrameStep),
    Append(FrameStep),
}

/// A block without an instruction: `machine` is the place of its G53 word, `first` that of its leftmost axis word,
/// and `ends` tells whether M2 or M30 is among its words.
#[derive(Clone, Copy)]
pub struct Ordinary {
    pub selections: Selections,
    pub machine: Option<usize>,
    pub words: [Option<Length>; 3],
    pub first: Option<usize>,
    pub ends: bool,
}

/// A right block; the place of a frame or limit instruction is that of its name or G word.
#[derive(Clone, Copy)]
pub enum Block {
    Frame {
        change: FrameChange,
        place: usize,
    },
    Limit {
        side: Side,
        values: [Option<Length>; 3],
        place: usize,
    },
    Ordinary(Ordinary),
}
