// Reading and entering settable frames.
ghost use Rattle.std.specs.Prelude.{◌≡◌, List, [], ◌∷◌};
ghost use Rattle.workpiece.specs.Settable.{frame_number, record_place, numbered_frame, records_of, no_records, offset_of, entered};

use crate::settable::{SettableFrame, SettableFrames};
use reader::functions::Settable;
use units::quantity::Length;

/// Where the record of a frame stands; G500 has none.
pub fn record_place(settable: Settable) -> Option<usize>
    ensures { result ≡ record_place (frame_number settable) }
{
    match settable {
        Settable::G500 => None,
        Settable::G54 => Some(0),
        Settable::G55 => Some(1),
        Settable::G56 => Some(2),
        Settable::G57 => Some(3),
        Settable::G58 => Some(4),
        Settable::G59 => Some(5),
    }
}

/// The frame of a number, 1 for G54 to 6 for G59.
// Not a `TryFrom`, which would stand with the G functions: only a call of the translator counts frames so.
pub fn numbered_frame(number: i64) -> Option<Settable>
    ensures { result ≡ numbered_frame number }
{
    match number {
        1 => Some(Settable::G54),
        2 => Some(Settable::G55),
        3 => Some(Settable::G56),
        4 => Some(Settable::G57),
        5 => Some(Settable::G58),
        6 => Some(Settable::G59),
        _ => None,
    }
}

impl SettableFrame {
    fn enter(&mut self, offset: [Length; 3])
        ensures { self.new.offset ≡ offset }
    {
        self.offset = offset;
    }
}

impl SettableFrames {
    /// Six records of no offset.
    pub fn new() -> SettableFrames
        ensures { records_of result ≡ no_records }
    {
        SettableFrames {
            records: [SettableFrame {
                offset: [Length::zero(); 3],
            }; 6],
        }
    }

    /// The offset of the selected frame; none, that is 0 on each axis, under G500.
    pub fn offset(&self, settable: Settable) -> [Length; 3]
        ensures { result ≡ offset_of (records_of self.now) (frame_number settable) }
    {
        match record_place(settable) {
            Some(n) => self.records[n].offset,
            None => [Length::zero(); 3],
        }
    }

    /// Enters the offset of a frame; G500 has none to enter.
    pub fn enter(&mut self, settable: Settable, offset: [Length; 3])
        ensures { records_of self.new ≡ entered (records_of self.old) (frame_number settable) offset }
    {
        if let Some(n) = record_place(settable) {
            let record = &mut self.records[n];
            record.enter(offset);
        }
    }
}
