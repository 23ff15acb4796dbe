// What a translator keeps beside its machine.
use crate::force::InForce;
use crate::modes::Modes;
use crate::settable::SettableFrames;
use chains::chain::Chain;
use frames::image::Image;
use units::quantity::{Length, Tolerance};

pub mod change;
pub mod entry;
pub mod moves;
pub mod select;

/// The chain, the settable frames, and how far off a target may be.
#[derive(Clone, Copy)]
pub struct Frames {
    pub chain: Chain,
    pub settable: SettableFrames,
    pub tolerance: Tolerance,
}

/// Frames, modal functions, what is in force, workpiece values, targets with spreads, and whether the programme has ended.
// No `Model`: a setup can be copied, and as the list of its steps its chain would not give back the places that it does not use.
#[derive(Clone, Copy)]
pub struct Setup {
    pub frames: Frames,
    pub modes: Modes,
    pub force: InForce,
    pub values: [Option<Length>; 3],
    pub image: Image,
    pub ended: bool,
}
