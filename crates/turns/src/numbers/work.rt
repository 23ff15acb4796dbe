// The turn numbers from those of the first octant.
ghost use Rattle.std.specs.Prelude.{◌≡◌, ℕ, ◌+◌, ◌-◌, ◌*◌, ◌/◌, ◌%◌, ◌^◌, ◌<◌, ◌≤◌, ℤ, neg_ℤ};
ghost use Rattle.turns.specs.Reference.{TurnLaw};
ghost use Rattle.turns.specs.Numbers.{quarter_c, quarter_s, turn_c, turn_s, Law};

use crate::numbers::TurnNumbers;
use crate::octant::octant_numbers;
use units::quantity::Angle;

/// Up to 899,999 ticks: above 450,000 the two change places.
fn quarter_numbers(ticks: u32) -> TurnNumbers
    requires { ticks < 900000 }
    ensures { (result.cosine ≡ quarter_c ticks) × (result.sine ≡ quarter_s ticks) }
{
    if ticks <= 450_000 {
        octant_numbers(ticks)
    } else {
        let mirrored = octant_numbers(900_000 - ticks);
        TurnNumbers {
            cosine: mirrored.sine,
            sine: mirrored.cosine,
        }
    }
}

/// A quarter turn further.
fn quarter_on(n: TurnNumbers) -> TurnNumbers
    ensures { (result.cosine ≡ neg_ℤ n.sine) × (result.sine ≡ n.cosine) }
{
    TurnNumbers {
        cosine: -n.sine,
        sine: n.cosine,
    }
}

/// The turn numbers of an angle. `law` is what is promised; `equal` says that they depend on the angle alone.
pub fn turn_numbers(angle: Angle) -> TurnNumbers
    ensures law { TurnLaw angle.ticks result.cosine result.sine }
    ensures equal { (result.cosine ≡ turn_c angle.ticks) × (result.sine ≡ turn_s angle.ticks) }
{
    let mut numbers = quarter_numbers(angle.ticks % 900_000);
    for _ in 0..angle.ticks / 900_000 {
        numbers = quarter_on(numbers);
    }
    numbers
}

/// The law of the definitions, for every number of ticks.
pub fn turn_law_stands()
    ensures { Law }
{}
