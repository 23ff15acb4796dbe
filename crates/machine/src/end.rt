// What a machine end is to everyone who moves it.
ghost use Rattle.std.specs.Prelude.{◌≡◌};
ghost use Rattle.machine.specs.Meaning.{Meaning, Sound};
ghost use Rattle.machine.specs.Replies.{reply_to, after_move, box_count, limit_told, increment_told, held_told};

use units::axis::{Point, Side};
use units::fault::Fault;

/// What takes moves in machine coordinates: boxes, topmost first, an increment for each axis, a rounding, and the position held.
/// Axes are numbered from 1 and levels from 0, the topmost box; one that is not there gets `Fault::Argument`.
// By number, not `Axis`: a question may ask for an axis that is not there.
pub trait MachineEnd {
    ghost meaning: { Self → Meaning };

    /// Taken where each coordinate is within every box; the end then holds their roundings.
    fn take_move(&mut self, to: Point) -> Result<(), Fault>
        ensures told { result ≡ reply_to (meaning self.old) to }
        ensures left { meaning self.new ≡ after_move (meaning self.old) to };

    /// What a move would get.
    fn ask_move(&self, to: Point) -> Result<(), Fault>
        ensures { result ≡ reply_to (meaning self.now) to };

    /// The number of boxes, or 255 where there are more.
    fn box_count(&self) -> u8
        ensures { result ≡ box_count (meaning self.now) };

    fn limit(&self, level: usize, axis: u8, side: Side) -> Result<i64, Fault>
        ensures { result ≡ limit_told (meaning self.now) level axis side };

    fn increment(&self, axis: u8) -> Result<u32, Fault>
        ensures { result ≡ increment_told (meaning self.now) axis };

    /// The coordinate held.
    fn held(&self, axis: u8) -> Result<i64, Fault>
        ensures { result ≡ held_told (meaning self.now) axis };

    ghost sound: { (e : Self) → Sound (meaning e) };
}
