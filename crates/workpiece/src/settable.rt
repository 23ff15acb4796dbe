// The settable frames G54 to G59.
use units::quantity::Length;

pub mod table;

/// The offset that was entered for a settable frame, by axis.
#[derive(Clone, Copy)]
pub struct SettableFrame {
    pub offset: [Length; 3],
}

/// The six records, G54 first.
// No `Model`: frames and setups hold it and are copied, and a struct that holds one with a model is not copied where it is passed on.
#[derive(Clone, Copy)]
pub struct SettableFrames {
    records: [SettableFrame; 6],
}
