// A roll of records.
ghost use Rattle.std.specs.Prelude.{◌≤◌, length};

pub mod calls;

/// The caller's places, of which the first `count` hold records.
// A count beside the places: a rule of the project, since the places are the caller's.
// No model: through one a caller learns nothing of its own places once the roll is gone.
#[derive(Drop)]
pub struct Roll<'a, R> {
    places: &'a mut [R],
    count: usize,
    ghost within: { count ≤ length places.now },
}
