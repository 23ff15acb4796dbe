// A work area over an end is again an end.
ghost use Rattle.machine.specs.Meaning.{topped};
ghost use Rattle.machine.specs.Owed.{topped_sound};

use crate::area::WorkArea;
use crate::end::MachineEnd;
use crate::joined::on_top;
use units::axis::{Point, Side};
use units::fault::Fault;

impl<E: MachineEnd> MachineEnd for WorkArea<E> {
    ghost meaning = { λ w. topped w.own (E.MachineEnd.meaning w.below) };

    ghost sound = { λ w. topped_sound w.own _ (E.MachineEnd.sound w.below) };

    fn take_move(&mut self, to: Point) -> Result<(), Fault> {
        match self.own.admit(to) {
            Ok(()) => on_top(Ok(()), self.below.take_move(to)),
            Err(fault) => on_top(Err(fault), self.below.ask_move(to)),
        }
    }

    fn ask_move(&self, to: Point) -> Result<(), Fault> {
        on_top(self.own.admit(to), self.below.ask_move(to))
    }

    fn box_count(&self) -> u8 {
        self.below.box_count().saturating_add(1)
    }

    fn limit(&self, level: usize, axis: u8, side: Side) -> Result<i64, Fault> {
        if level > 0 {
            self.below.limit(level - 1, axis, side)
        } else {
            self.own.limit(0, axis, side)
        }
    }

    fn increment(&self, axis: u8) -> Result<u32, Fault> {
        self.below.increment(axis)
    }

    fn held(&self, axis: u8) -> Result<i64, Fault> {
        self.below.held(axis)
    }
}
