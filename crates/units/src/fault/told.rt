// What is told of a fault.
ghost use Rattle.std.specs.Prelude.{◌≡◌};
ghost use Rattle.units.specs.Faults.{at_place, decline_of};

use crate::fault::{Decline, Fault, Layer};

// A fault that has a place and nothing else.
fn at_place(number: u8, layer: Layer, place: usize) -> Decline
    ensures { result ≡ record { number = number; layer = layer; place = place; axis = 0; step = 0; level = 0 } }
{
    Decline {
        number,
        layer,
        place,
        axis: 0,
        step: 0,
        level: 0,
    }
}

impl Fault {
    /// Number, layer, place, axis, step and level.
    pub fn decline(self) -> Decline
        ensures { result ≡ decline_of self }
    {
        match self {
            Fault::TooLong => at_place(1, Layer::Reader, 512),
            Fault::Byte { place } => at_place(2, Layer::Reader, place),
            Fault::Shape { place } => at_place(3, Layer::Reader, place),
            Fault::Unknown { place } => at_place(4, Layer::Block, place),
            Fault::Repeated { place } => at_place(5, Layer::Block, place),
            Fault::Misplaced { place } => at_place(6, Layer::Block, place),
            Fault::Unfit { place } => at_place(7, Layer::Block, place),
            Fault::Range { place } => at_place(8, Layer::Block, place),
            Fault::Ended => at_place(9, Layer::Block, 0),
            Fault::ChainFull { place } => at_place(10, Layer::Frame, place),
            Fault::IncrementalMachine { place } => at_place(11, Layer::Frame, place),
            Fault::Open { place, axis } => Decline {
                axis: axis.number(),
                ..at_place(12, Layer::Frame, place)
            },
            Fault::Beyond { place, axis, step } => Decline {
                axis: axis.number(),
                step,
                ..at_place(13, Layer::Frame, place)
            },
            Fault::Spread { place, axis, step } => Decline {
                axis: axis.number(),
                step,
                ..at_place(14, Layer::Frame, place)
            },
            Fault::Outside { place, axis, level } => Decline {
                axis: axis.number(),
                level,
                ..at_place(15, Layer::Machine, place)
            },
            Fault::RollFull { start } => at_place(16, Layer::Call, start),
            Fault::Argument => at_place(17, Layer::Call, 0),
        }
    }

    /// A fault of the chain, of pushing or of the machine end, told at the place of a block's word; any other stays.
    // Until then its place is 0: one enum for all faults is a rule of the project, and an option of a place would say that a told fault may lack one.
    pub fn at(self, place: usize) -> Fault
        ensures { result ≡ at_place place self }
    {
        match self {
            Fault::ChainFull { .. } => Fault::ChainFull { place },
            Fault::Open { axis, .. } => Fault::Open { place, axis },
            Fault::Beyond { axis, step, .. } => Fault::Beyond { place, axis, step },
            Fault::Spread { axis, step, .. } => Fault::Spread { place, axis, step },
            Fault::Outside { axis, level, .. } => Fault::Outside { place, axis, level },
            other => other,
        }
    }
}
