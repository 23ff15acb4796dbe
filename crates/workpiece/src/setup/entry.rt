// Entering the offset of a settable frame.
ghost use Rattle.std.specs.Prelude.{◌≡◌, List, [], ◌∷◌};
ghost use Rattle.workpiece.specs.Setup.{setup_of};
ghost use Rattle.workpiece.specs.Changes.{told_of, left_of};
ghost use Rattle.workpiece.specs.Entries.{lengths_of, entered_at, entered_by};

use crate::places::all_open;
use crate::settable::table::numbered_frame;
use crate::setup::Setup;
use blocks::types::Settable;
use units::axis::Point;
use units::fault::Fault;
use units::quantity::Length;

// By name: a point has no index, and `?` ends it at the first that is no length.
fn lengths(p: Point) -> Option<[Length; 3]>
    ensures { result ≡ lengths_of p }
{
    Some([Length::new(p.x)?, Length::new(p.y)?, Length::new(p.z)?])
}

impl Setup {
    // The selected frame opens all axes.
    fn enter_at(&mut self, settable: Settable, offset: [Length; 3])
        ensures { setup_of self.new ≡ entered_at (setup_of self.old) settable offset }
    {
        if settable == self.force.settable {
            self.values = all_open();
        }
        self.frames.settable.enter(settable, offset);
    }

    /// The offset of frame 1 to 6, G54 to G59; a frame or a coordinate out of range gets 17 and changes nothing.
    pub fn enter(&mut self, frame: i64, offset: Point) -> Result<(), Fault>
        ensures told { result ≡ told_of (entered_by (setup_of self.old) frame offset) }
        ensures left { setup_of self.new ≡ left_of (setup_of self.old) (entered_by (setup_of self.old) frame offset) }
    {
        let settable = numbered_frame(frame).ok_or(Fault::Argument)?;
        let offset = lengths(offset).ok_or(Fault::Argument)?;
        self.enter_at(settable, offset);
        Ok(())
    }
}
