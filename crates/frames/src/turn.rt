// A turn of two coordinates and their spreads.
ghost use Rattle.std.specs.Prelude.{◌≡◌, ◌<◌, max};
ghost use Rattle.frames.specs.Pushing.{quarters_first, quarters_second, quarters_spread, odd_first, odd_second, odd_spread, turned_first, turned_second, turned_spread};

use crate::coordinate::Coordinate;
use crate::round;
use turns::numbers::work::turn_numbers;
use units::quantity::Angle;

const QUARTER: u32 = 900_000;

/// Exact: each quarter turn makes −j and i of i and j, and spreads go with their coordinates.
fn quarters(n: u32, i: Coordinate, j: Coordinate) -> ((i64, u64), (i64, u64))
    requires { n < 4 }
    ensures first { result.0 ≡ (quarters_first n i.at j.at, quarters_spread n i.spread j.spread) }
    ensures second { result.1 ≡ (quarters_second n i.at j.at, quarters_spread n j.spread i.spread) }
{
    match n {
        0 => ((i.at, i.spread), (j.at, j.spread)),
        1 => ((-j.at, j.spread), (i.at, i.spread)),
        2 => ((-i.at, i.spread), (-j.at, j.spread)),
        _ => ((j.at, j.spread), (-i.at, i.spread)),
    }
}

/// By the turn numbers, rounded.
fn odd(angle: Angle, i: Coordinate, j: Coordinate) -> ((i64, u64), (i64, u64))
    ensures first { result.0 ≡ (odd_first angle.ticks i.at j.at, odd_spread (max i.spread j.spread) i.at j.at) }
    ensures second { result.1 ≡ (odd_second angle.ticks i.at j.at, odd_spread (max j.spread i.spread) i.at j.at) }
{
    let n = turn_numbers(angle);
    let spread = round::odd_spread(i, j);
    (
        (round::odd_first(n, i, j), spread),
        (round::odd_second(n, i, j), spread),
    )
}

/// The plane's two coordinates after the turn, each with its spread.
pub fn turned(angle: Angle, i: Coordinate, j: Coordinate) -> ((i64, u64), (i64, u64))
    ensures first { result.0 ≡ (turned_first angle.ticks i.at j.at, turned_spread angle.ticks i.at j.at i.spread j.spread) }
    ensures second { result.1 ≡ (turned_second angle.ticks i.at j.at, turned_spread angle.ticks i.at j.at j.spread i.spread) }
{
    if angle.ticks % QUARTER == 0 {
        quarters(angle.ticks / QUARTER, i, j)
    } else {
        odd(angle, i, j)
    }
}
