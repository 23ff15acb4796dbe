// The calls that a line can make.
ghost use Rattle.std.specs.Prelude.{◌≡◌};

use questions::question::Question;
use units::axis::Point;

/// Lower and upper limits of a box, as they are written.
#[derive(Clone, Copy)]
pub struct Limits {
    pub lower: Point,
    pub upper: Point,
}

/// How many records the rolls of a programme have room for.
#[derive(Clone, Copy)]
pub struct Capacities {
    pub moves: u64,
    pub declines: u64,
}

/// What a script that names none has.
impl Default for Capacities {
    ghost is_default = { λ c. (c.moves ≡ 70000) × (c.declines ≡ 70000) };

    fn default() -> Capacities {
        Capacities {
            moves: 70_000,
            declines: 70_000,
        }
    }
}

#[derive(Clone, Copy)]
pub enum Call<'a> {
    ScaleEnd { increment: i64, limits: Limits },
    CountEnd { increments: Point, limits: Limits },
    Area(Limits),
    Move(Point),
    Ask(Question),
    New { tolerance: i64 },
    Block(&'a [u8]),
    Entry { frame: i64, offset: Point },
    Reset,
    Read,
    Rolls(Capacities),
    Programme,
    Check,
}
