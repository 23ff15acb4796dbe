// Cosine and sine of the first octant, by the sums of their series.
ghost use Rattle.std.specs.Prelude.{◌≡◌, ℕ, ◌+◌, ◌-◌, ◌*◌, ◌/◌, ◌%◌, ◌^◌, ◌<◌, ◌≤◌, pos};
ghost use Rattle.turns.specs.Reference.{OctantLaw};
ghost use Rattle.turns.specs.Terms.{cut_term};
ghost use Rattle.turns.specs.Numbers.{octant_c, octant_s};

use crate::numbers::TurnNumbers;

const SCALE: u128 = 1_000_000_000_000_000_000;

/// The next of the terms x^k / k!, in 10^18ths, cut off.
#[tactic(auto, using(crate::proofs::Bounds::cut_next))]
fn next_term(before: u128, x: u128, k: u32) -> u128
    requires most { before ≤ 10 ^ 18 }
    requires small { x < 10 ^ 18 }
    requires first { 1 ≤ k }
    requires last { k ≤ 16 }
    requires chained { before ≡ cut_term x (k - 1) }
    ensures value { result ≡ cut_term x k }
    ensures less { result ≤ before }
{
    before * x / (k as u128 * SCALE)
}

/// Cosine and sine of 0 to 450,000 ticks.
pub fn octant_numbers(ticks: u32) -> TurnNumbers
    requires { ticks ≤ 450000 }
    ensures near { OctantLaw ticks (octant_c ticks) (octant_s ticks) }
    ensures equal { (result.cosine ≡ pos (octant_c ticks)) × (result.sine ≡ pos (octant_s ticks)) }
{
    let x = (ticks as u128) * 314159265358979323846 / 180_000_000;
    let mut last = SCALE;
    let mut cosine = SCALE;
    let mut sine = 0;
    // Four terms a round: the first and third are the sine's, the second and fourth the cosine's.
    for round in 0..4 {
        let k = 4 * round;
        let t1 = next_term(last, x, k + 1);
        let t2 = next_term(t1, x, k + 2);
        let t3 = next_term(t2, x, k + 3);
        let t4 = next_term(t3, x, k + 4);
        sine += t1 - t3;
        cosine -= t2 - t4;
        last = t4;
    }
    TurnNumbers {
        cosine: ((cosine + 500_000_000) / 1_000_000_000) as i64,
        sine: ((sine + 500_000_000) / 1_000_000_000) as i64,
    }
}
