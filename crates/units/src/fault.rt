// Why a call is declined, for the whole product.
ghost use Rattle.std.specs.Prelude.{Some};
ghost use Rattle.units.specs.Faults.{layer_name};

use crate::axis::Axis;
use std::fmt;

pub mod told;

/// One case for each of the 17 declines. A place counts bytes from 0 in the block, an axis is the one told,
/// a step counts from 1 at the outermost, a level from 0 at the topmost box.
// Steps and levels are the numbers that are told, 0 and 9 of a step among them.
#[derive(Clone, Copy, PartialEq, Eq, Debug)]
pub enum Fault {
    /// 1: the block has more than 512 bytes.
    TooLong,
    /// 2: a byte that no word may hold.
    Byte { place: usize },
    /// 3: a name or a number is misshapen.
    Shape { place: usize },
    /// 4: an unknown address or G number.
    Unknown { place: usize },
    /// 5: an address or a G group is repeated, or there is a sixth M word.
    Repeated { place: usize },
    /// 6: a word stands where it may not.
    Misplaced { place: usize },
    /// 7: an instruction lacks a word or has one that it does not take.
    Unfit { place: usize },
    /// 8: a number is out of range or has too many decimals.
    Range { place: usize },
    /// 9: the programme has ended.
    Ended,
    /// 10: the chain has eight steps already.
    ChainFull { place: usize },
    /// 11: G53 with axis words under G91.
    IncrementalMachine { place: usize },
    /// 12: a moved axis has no workpiece value.
    Open { place: usize, axis: Axis },
    /// 13: a coordinate is out of range after a step (0: the workpiece value itself; 9: the settable offset).
    Beyond { place: usize, axis: Axis, step: u8 },
    /// 14: a spread is above the tolerance after a step.
    Spread { place: usize, axis: Axis, step: u8 },
    /// 15: a coordinate is outside a box of the machine end.
    Outside { place: usize, axis: Axis, level: u8 },
    /// 16: a roll is full; the place is the block's start in its text.
    RollFull { start: usize },
    /// 17: a number given to a call is out of range.
    Argument,
}

/// Which part of the product declines.
#[derive(Clone, Copy, PartialEq, Eq, Debug)]
pub enum Layer {
    Reader,
    Block,
    Frame,
    Machine,
    Call,
}

impl fmt::Display for Layer {
    ghost output = { λ layer. Some (layer_name layer) };

    fn fmt<W: fmt::Write>(&self, f: &mut fmt::Formatter<W>) -> fmt::Result {
        f.write_str(match self {
            Layer::Reader => "reader",
            Layer::Block => "block",
            Layer::Frame => "frame",
            Layer::Machine => "machine",
            Layer::Call => "call",
        })
    }
}

/// What is told of a fault; a value that its case does not use is 0.
// Not options: a decline is written, and counted, as the same six values whatever its case.
#[derive(Clone, Copy, PartialEq, Eq, Debug)]
pub struct Decline {
    pub number: u8,
    pub layer: Layer,
    pub place: usize,
    pub axis: u8,
    pub step: u8,
    pub level: u8,
}
