// The length of an increment.
ghost use Rattle.std.specs.Prelude.{ℕ, ◌≤◌};

pub mod make;

/// The length of an end's steps, or of one count of a motor: 1 to 100,000 units.
#[derive(Clone, Copy)]
pub struct Increment {
    pub units: u32,
    ghost least: { 1 ≤ units },
    ghost most: { units ≤ 100000 },
}
