// One slot for each address and for each G group.
ghost use Rattle.std.specs.Prelude.{◌≡◌, true, false, not, is_some, Some};
ghost use Rattle.blocks.specs.Slots.{taken_group, put_group, taken_axis, put_axis, full, put_m, taken as taken_in, put as put_in, empty_slots};

use crate::gathered::{Groups, Measured, Ms, Slots};
use reader::functions::{GFunction, MFunction};
use reader::types::{Item, Said};
use units::axis::{Axis, ByAxis};

/// How many M words a block may have.
const M_WORDS: usize = 5;

// Each of these fills a slot and tells whether it was free; where it was not, all stays. A flag is no option: it has no value to hold.
fn fill<T: Copy>(slot: &mut Option<T>, value: T) -> bool
    ensures free { result ≡ not (is_some slot.old) }
    ensures filled { result ≡ true → slot.new ≡ Some value }
    ensures kept { result ≡ false → slot.new ≡ slot.old }
{
    if slot.is_some() {
        return false;
    }
    *slot = Some(value);
    true
}

fn mark(slot: &mut bool) -> bool
    ensures free { result ≡ not slot.old }
    ensures filled { result ≡ true → slot.new ≡ true }
    ensures kept { result ≡ false → slot.new ≡ slot.old }
{
    if *slot {
        return false;
    }
    *slot = true;
    true
}

fn put_axis(axes: &mut ByAxis<Option<Measured>>, axis: Axis, measured: Measured) -> bool
    ensures free { result ≡ not (taken_axis axes.old axis) }
    ensures filled { result ≡ true → axes.new ≡ put_axis axes.old axis measured }
    ensures kept { result ≡ false → axes.new ≡ axes.old }
{
    match axis {
        Axis::X => fill(&mut axes.x, measured),
        Axis::Y => fill(&mut axes.y, measured),
        Axis::Z => fill(&mut axes.z, measured),
    }
}

impl Groups {
    fn put(&mut self, function: GFunction, place: usize) -> bool
        ensures free { result ≡ not (taken_group self.old function) }
        ensures filled { result ≡ true → self.new ≡ put_group self.old function place }
        ensures kept { result ≡ false → self.new ≡ self.old }
    {
        match function {
            GFunction::Motion(motion) => fill(&mut self.selections.motion, motion),
            GFunction::Plane(plane) => fill(&mut self.selections.plane, plane),
            GFunction::Settable(settable) => fill(&mut self.selections.settable, settable),
            GFunction::Machine => fill(&mut self.machine, place),
            GFunction::Unit(unit) => fill(&mut self.selections.unit, unit),
            GFunction::Distance(distance) => fill(&mut self.selections.distance, distance),
            GFunction::Limit(_) => mark(&mut self.limit),
        }
    }
}

impl Ms {
    fn put(&mut self, function: MFunction) -> bool
        ensures free { result ≡ not (full self.old) }
        ensures filled { result ≡ true → self.new ≡ put_m self.old function }
        ensures kept { result ≡ false → self.new ≡ self.old }
    {
        if self.count >= M_WORDS {
            return false;
        }
        self.count += 1;
        if function == MFunction::End {
            self.ends = true;
        }
        true
    }
}

impl Slots {
    pub fn empty() -> Slots
        ensures { result ≡ empty_slots }
    {
        Slots::default()
    }

    /// Puts a word in its slot; false where an earlier word stands in its way, and then all stays.
    pub fn put(&mut self, item: Item) -> bool
        ensures free { result ≡ not (taken_in self.old item.says) }
        ensures filled { result ≡ true → self.new ≡ put_in self.old item }
        ensures kept { result ≡ false → self.new ≡ self.old }
    {
        let place = item.place;
        match item.says {
            Said::Name(name) => mark(&mut self.names[name as usize]),
            Said::Axis(axis, number) => put_axis(&mut self.axes, axis, Measured { number, place }),
            Said::Rpl(number) => fill(&mut self.rpl, Measured { number, place }),
            Said::G(function) => self.groups.put(function, place),
            Said::M(function) => self.ms.put(function),
            Said::N => mark(&mut self.n),
            Said::Passed(address) => mark(&mut self.passed[address as usize]),
        }
    }
}
