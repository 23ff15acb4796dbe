// What pushing makes of a point.

/// Coordinate and spread of X, Y and Z, in units. An axis that was not moved has the value it was given, and spread 0.
// Two arrays: coordinates go on as a point without their spreads, and spreads are told alone.
#[derive(Clone, Copy, PartialEq, Eq, Debug, Default)]
pub struct Image {
    pub at: [i64; 3],
    pub spread: [u64; 3],
}
