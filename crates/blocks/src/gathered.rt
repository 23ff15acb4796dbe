// What is gathered from the words of a block, before its rules are applied.
use crate::types::Selections;
use reader::types::Number;
use units::axis::{ByAxis, Side};

/// A number, and where its word stands.
#[derive(Clone, Copy)]
pub struct Measured {
    pub number: Number,
    pub place: usize,
}

/// The G words: what they select, the place of G53, and whether G25 or G26 is there.
#[derive(Clone, Copy, Default)]
pub struct Groups {
    pub selections: Selections,
    pub machine: Option<usize>,
    pub limit: bool,
}

/// The M words: how many, and whether one of them ends the programme.
#[derive(Clone, Copy, Default)]
pub struct Ms {
    pub count: usize,
    pub ends: bool,
}

/// A place for each address and for each G group. `names` and `passed` tell which frame names and which of F, S, T and
/// D stand in the block, in the order of their types.
// Flags by the number of an enum's case: a set would need the heap.
#[derive(Clone, Copy, Default)]
pub struct Slots {
    pub names: [bool; 8],
    pub groups: Groups,
    pub axes: ByAxis<Option<Measured>>,
    pub n: bool,
    pub passed: [bool; 4],
    pub ms: Ms,
    pub rpl: Option<Measured>,
}

/// The kind of a frame instruction's step.
#[derive(Clone, Copy)]
pub enum StepKind {
    Offset,
    Turn,
    Scale,
    Mirror,
}

/// A frame name, G25 or G26.
#[derive(Clone, Copy)]
pub enum Instruction {
    Frame { kind: StepKind, additive: bool },
    Limit(Side),
}

/// An instruction, and where it stands.
#[derive(Clone, Copy)]
pub struct Placed {
    pub by: Instruction,
    pub place: usize,
}

/// What the order of the words decides, each the leftmost of its kind: the instruction, an N word behind another word,
/// a word that may not stand beside an instruction, an axis word. `any` tells whether there is a word at all.
#[derive(Clone, Copy, Default)]
pub struct Order {
    pub any: bool,
    pub instruction: Option<Placed>,
    pub late: Option<usize>,
    pub stray: Option<usize>,
    pub axis: Option<usize>,
}

/// The words of a block in their slots, and their order.
#[derive(Clone, Copy)]
pub struct Gathered {
    pub slots: Slots,
    pub order: Order,
}

/// What the numbers of a block are.
#[derive(Clone, Copy)]
pub enum Measure {
    Length { inch: bool },
    Factor,
    Angle,
    Any,
}
