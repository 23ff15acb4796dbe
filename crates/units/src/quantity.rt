// Numbers whose range is part of their type.
// Types and makers of their own, not one generic by its limits: they differ in sign and width, and none may stand for another.
ghost use Rattle.std.specs.Prelude.{ℕ, ◌<◌, ◌≤◌, ℤ, unsigned_abs};

pub mod make;

/// A length of a block or of a settable frame, in units: at most 999,999,999 either way.
#[derive(Clone, Copy)]
pub struct Length {
    pub units: i64,
    ghost most: { unsigned_abs units ≤ 999999999 },
}

/// A scale factor in hundred-thousandths: 1 to 10,000,000.
#[derive(Clone, Copy)]
pub struct Factor {
    pub parts: u32,
    ghost some: { 1 ≤ parts },
    ghost most: { parts ≤ 10000000 },
}

/// An angle in ticks of a ten-thousandth of a degree, below a full turn of 3,600,000.
#[derive(Clone, Copy)]
pub struct Angle {
    pub ticks: u32,
    ghost below: { ticks < 3600000 },
}

/// How far off a target may be told, in units: 0 to 100,000.
#[derive(Clone, Copy)]
pub struct Tolerance {
    pub units: u64,
    ghost most: { units ≤ 100000 },
}

/// What the rounding division divides.
#[derive(Clone, Copy)]
pub struct Dividend {
    pub value: i64,
    ghost most: { unsigned_abs value ≤ 4000000000000000000 },
}

/// What the rounding division divides by.
#[derive(Clone, Copy)]
pub struct Divisor {
    pub value: u32,
    ghost some: { 1 ≤ value },
    ghost most: { value ≤ 1000000000 },
}
