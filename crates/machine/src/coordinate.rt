// A coordinate that a box can admit.
ghost use Rattle.std.specs.Prelude.{◌≤◌, ℤ, unsigned_abs};

/// At most 2,000,000,000 units either way, as limits are.
#[derive(Clone, Copy)]
pub(crate) struct Coordinate {
    pub units: i64,
    ghost most: { unsigned_abs units ≤ 2000000000 },
}
