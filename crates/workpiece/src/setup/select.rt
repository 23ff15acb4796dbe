// Making a setup, selections and reset.
ghost use Rattle.std.specs.Prelude.{◌≡◌};
ghost use Rattle.workpiece.specs.Setup.{setup_of, started, after_reset};
ghost use Rattle.workpiece.specs.Selects.{opened_by, selected};

use crate::force::InForce;
use crate::modes::Modes;
use crate::places::all_open;
use crate::settable::SettableFrames;
use crate::setup::{Frames, Setup};
use blocks::types::Ordinary;
use chains::chain::Chain;
use frames::image::Image;
use units::axis::Point;
use units::quantity::{Length, Tolerance};

/// Selecting another settable frame opens all axes.
pub fn opened_by(
    before: InForce,
    after: InForce,
    values: [Option<Length>; 3],
) -> [Option<Length>; 3]
    ensures { result ≡ opened_by before after values }
{
    if before.settable == after.settable {
        values
    } else {
        all_open()
    }
}

impl Setup {
    /// As a new translator begins, over an end that holds that position.
    pub fn new(tolerance: Tolerance, held: Point) -> Setup
        ensures { setup_of result ≡ started tolerance held }
    {
        Setup {
            frames: Frames {
                chain: Chain::empty(),
                settable: SettableFrames::new(),
                tolerance,
            },
            modes: Modes::start(),
            force: InForce::start(),
            values: all_open(),
            image: Image {
                at: [held.x, held.y, held.z],
                spread: [0; 3],
            },
            ended: false,
        }
    }

    /// The selections of an ordinary block, and whether it ends the programme.
    pub fn select(&mut self, block: &Ordinary)
        ensures { setup_of self.new ≡ selected (setup_of self.old) block.now }
    {
        let force = self.force.selected(block.selections.settable);
        self.values = opened_by(self.force, force, self.values);
        self.modes = self.modes.selected(block.selections);
        self.force = force;
        self.ended = block.ends || self.ended;
    }

    /// Empties the chain, puts the starting functions back, opens all axes, and lets a programme begin anew.
    pub fn reset(&mut self)
        ensures { setup_of self.new ≡ after_reset (setup_of self.old) }
    {
        self.frames.chain.clear();
        self.modes = Modes::start();
        self.force = InForce::start();
        self.values = all_open();
        self.ended = false;
    }
}
