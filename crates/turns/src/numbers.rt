// The turn numbers of any angle.
ghost use Rattle.std.specs.Prelude.{ℕ, ◌≤◌, ℤ, nat_abs};

pub mod work;

/// Cosine and sine of an angle in 10^9ths, never beyond 10^9 in size.
#[derive(Clone, Copy)]
pub struct TurnNumbers {
    pub cosine: i64,
    pub sine: i64,
    ghost cosmost: { nat_abs cosine ≤ 1000000000 },
    ghost sinmost: { nat_abs sine ≤ 1000000000 },
}
