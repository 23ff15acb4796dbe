// From a line to its call.
use crate::call::{Call, Capacities, Limits};
use crate::number::number;
use crate::words::Words;
use questions::question::Question;
use units::axis::{Point, Side};

impl<'a> Words<'a> {
    fn take_number(&mut self) -> Option<i64> {
        number(self.take_word()?)
    }

    fn take_count(&mut self) -> Option<u64> {
        u64::try_from(self.take_number()?).ok()
    }

    // By name: a point has no index.
    fn take_point(&mut self) -> Option<Point> {
        let x = self.take_number()?;
        let y = self.take_number()?;
        let z = self.take_number()?;
        Some(Point { x, y, z })
    }

    // The limits of a box: lower and upper, axis by axis.
    fn take_limits(&mut self) -> Option<Limits> {
        let x = self.take_number()?;
        let ux = self.take_number()?;
        let y = self.take_number()?;
        let uy = self.take_number()?;
        let z = self.take_number()?;
        let uz = self.take_number()?;
        Some(Limits {
            lower: Point { x, y, z },
            upper: Point {
                x: ux,
                y: uy,
                z: uz,
            },
        })
    }

    fn take_side(&mut self) -> Option<Side> {
        match self.take_word()? {
            b"lower" => Some(Side::Lower),
            b"upper" => Some(Side::Upper),
            _ => None,
        }
    }

    fn take_end(&mut self) -> Option<Call<'a>> {
        match self.take_word()? {
            b"scale" => {
                let increment = self.take_number()?;
                let limits = self.take_limits()?;
                Some(Call::ScaleEnd { increment, limits })
            }
            b"count" => {
                let increments = self.take_point()?;
                let limits = self.take_limits()?;
                Some(Call::CountEnd { increments, limits })
            }
            _ => None,
        }
    }

    fn take_question(&mut self) -> Option<Question> {
        match self.take_word()? {
            b"boxes" => Some(Question::Boxes),
            b"limit" => {
                let level = self.take_number()?;
                let axis = self.take_number()?;
                let side = self.take_side()?;
                Some(Question::Limit { level, axis, side })
            }
            b"increment" => Some(Question::Increment {
                axis: self.take_number()?,
            }),
            b"held" => Some(Question::Held {
                axis: self.take_number()?,
            }),
            b"move" => Some(Question::Move(self.take_point()?)),
            _ => None,
        }
    }

    fn take_entry(&mut self) -> Option<Call<'a>> {
        let frame = self.take_number()?;
        let offset = self.take_point()?;
        Some(Call::Entry { frame, offset })
    }

    fn take_rolls(&mut self) -> Option<Call<'a>> {
        let moves = self.take_count()?;
        let declines = self.take_count()?;
        Some(Call::Rolls(Capacities { moves, declines }))
    }

    // The call of a line whose words are all used by it.
    fn take_call(&mut self) -> Option<Call<'a>> {
        match self.take_word()? {
            b"end" => self.take_end(),
            b"area" => Some(Call::Area(self.take_limits()?)),
            b"move" => Some(Call::Move(self.take_point()?)),
            b"ask" => Some(Call::Ask(self.take_question()?)),
            b"new" => Some(Call::New {
                tolerance: self.take_number()?,
            }),
            b"entry" => self.take_entry(),
            b"reset" => Some(Call::Reset),
            b"read" => Some(Call::Read),
            b"rolls" => self.take_rolls(),
            b"programme" => Some(Call::Programme),
            b"check" => Some(Call::Check),
            _ => None,
        }
    }
}

/// What a line calls for; none where it is not understood.
pub fn call(line: &[u8]) -> Option<Call<'_>> {
    if let Some(rest) = line.strip_prefix(b"block") {
        return match rest {
            [] => Some(Call::Block(rest)),
            [b' ', text @ ..] => Some(Call::Block(text)),
            _ => None,
        };
    }
    let mut words = Words::of(line);
    let call = words.take_call()?;
    words.at_end().then_some(call)
}

/// An empty line or a remark.
pub fn passed_over(line: &[u8]) -> bool {
    matches!(line, [] | [b'#', ..])
}
