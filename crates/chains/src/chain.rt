// The chain.
ghost use Rattle.std.specs.Prelude.{◌≡◌, ℕ, ◌<◌, ◌≤◌, length};

use crate::step::Step;

pub mod work;

/// At most eight steps, the outermost first.
// An array with a count: a rule of the project, so that no block fails for want of memory.
// No model: the view of a `Copy` struct has to give its fields back, and the list of the steps forgets what lies past the count.
#[derive(Clone, Copy)]
pub struct Chain {
    pub steps: [Step; 8],
    pub count: usize,
    ghost few: { count ≤ 8 },
    ghost sized: { length steps ≡ 8 },
}
