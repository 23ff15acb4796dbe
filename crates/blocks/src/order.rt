// What the order of the words decides: the leftmost word of each kind.
ghost use Rattle.std.specs.Prelude.{◌≡◌, Some};
ghost use Rattle.blocks.specs.Order.{keep, framing, empty_order, noted, with_instruction, with_stray, with_n, with_axis};

use crate::gathered::{Instruction, Order, Placed, StepKind};
use reader::functions::GFunction;
use reader::types::{FrameName, Item, Said};

// The place that is held stays.
fn leftmost(held: Option<usize>, place: usize) -> Option<usize>
    ensures { result ≡ keep held (Some place) }
{
    held.or(Some(place))
}

fn frame(name: FrameName) -> Instruction
    ensures { result ≡ framing name }
{
    let step = |kind, additive| Instruction::Frame { kind, additive };
    match name {
        FrameName::Trans => step(StepKind::Offset, false),
        FrameName::Rot => step(StepKind::Turn, false),
        FrameName::Scale => step(StepKind::Scale, false),
        FrameName::Mirror => step(StepKind::Mirror, false),
        FrameName::Atrans => step(StepKind::Offset, true),
        FrameName::Arot => step(StepKind::Turn, true),
        FrameName::Ascale => step(StepKind::Scale, true),
        FrameName::Amirror => step(StepKind::Mirror, true),
    }
}

impl Order {
    pub fn empty() -> Order
        ensures { result ≡ empty_order }
    {
        Order::default()
    }

    fn note_instruction(&mut self, by: Instruction, place: usize)
        ensures { self.new ≡ with_instruction self.old by place }
    {
        match self.instruction {
            Some(_) => self.stray = leftmost(self.stray, place),
            None => self.instruction = Some(Placed { by, place }),
        }
        self.any = true;
    }

    fn note_stray(&mut self, place: usize)
        ensures { self.new ≡ with_stray self.old place }
    {
        self.stray = leftmost(self.stray, place);
        self.any = true;
    }

    fn note_n(&mut self, place: usize)
        ensures { self.new ≡ with_n self.old place }
    {
        if self.any {
            self.late = leftmost(self.late, place);
            self.stray = leftmost(self.stray, place);
        }
        self.any = true;
    }

    fn note_axis(&mut self, place: usize)
        ensures { self.new ≡ with_axis self.old place }
    {
        self.axis = leftmost(self.axis, place);
        self.any = true;
    }

    /// One word more at the right.
    pub fn note(&mut self, item: Item)
        ensures { self.new ≡ noted self.old item }
    {
        let place = item.place;
        match item.says {
            Said::Name(name) => self.note_instruction(frame(name), place),
            Said::G(GFunction::Limit(side)) => {
                self.note_instruction(Instruction::Limit(side), place)
            }
            Said::Axis(_, _) => self.note_axis(place),
            Said::Rpl(_) => self.any = true,
            Said::N => self.note_n(place),
            Said::G(_) | Said::M(_) | Said::Passed(_) => self.note_stray(place),
        }
    }
}
