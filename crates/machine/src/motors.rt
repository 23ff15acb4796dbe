// What a machine with a motor for each axis is made of.
use units::axis::ByAxis;

/// The length of one count of each axis's motor, in units.
pub type Increments = ByAxis<u32>;

/// Where each axis's motor stands, in counts.
pub type Counts = ByAxis<i64>;
