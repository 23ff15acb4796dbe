// One step of the chain, axis by axis.
ghost use Rattle.std.specs.Prelude.{◌≡◌, ℕ, ◌<◌};
ghost use Rattle.chains.specs.declared.step.Step.{Step};
ghost use Rattle.chains.specs.declared.step.Step.TheVariants.{Offset, Scale, Turn};
ghost use Rattle.frames.specs.Pushing.{through};
ghost use Rattle.frames.specs.Axes.{GivesAt, new_axis};

use crate::tested::{Stepped, Tested};
use crate::turn::turned;
use chains::plane::{first_axis, second_axis};
use chains::step::Step;
use units::axis::Plane;
use units::quantity::{Angle, Factor, Length};

impl Tested {
    /// The moved axes as `new` gives them; the others stay.
    fn moved_by<F: Fn(usize) -> (i64, u64)>(self, moved: [bool; 3], new: F) -> Stepped
        requires { (a : ℕ) → a < 3 → F.pre new a }
        ensures moved { result.moved ≡ moved }
        ensures image { (s : Step) → GivesAt (F.post new) (new_axis s self.image) → result.image ≡ through moved s self.image }
    {
        let mut image = self.image;
        // By index over the axes: a rule of the project for pushing.
        for a in 0..3 {
            if moved[a] {
                let (at, spread) = new(a);
                image.at[a] = at;
                image.spread[a] = spread;
            }
        }
        Stepped { image, moved }
    }

    /// The moved axes through an offset.
    pub fn offset(self, moved: [bool; 3], by: [Option<Length>; 3]) -> Stepped
        ensures moved { result.moved ≡ moved }
        ensures image { result.image ≡ through moved (Offset by) self.image }
    {
        self.moved_by(
            moved,
            |a|
                requires { a < 3 }
                ensures { result ≡ new_axis (Offset by) self.image a }
            { self.axis(a).offset(by[a]) },
        )
    }

    fn scale(self, moved: [bool; 3], by: [Option<Factor>; 3]) -> Stepped
        ensures moved { result.moved ≡ moved }
        ensures image { result.image ≡ through moved (Scale by) self.image }
    {
        self.moved_by(
            moved,
            |a|
                requires { a < 3 }
                ensures { result ≡ new_axis (Scale by) self.image a }
            { self.axis(a).scaled(by[a]) },
        )
    }

    fn turn(self, moved: [bool; 3], plane: Plane, angle: Angle) -> Stepped
        ensures moved { result.moved ≡ moved }
        ensures image { result.image ≡ through moved (Turn plane angle) self.image }
    {
        let i = first_axis(plane);
        let j = second_axis(plane);
        let (first, second) = turned(angle, self.axis(i), self.axis(j));
        self.moved_by(moved, |a| {
            if a == i {
                first
            } else if a == j {
                second
            } else {
                self.axis(a).kept()
            }
        })
    }

    /// The moved axes through one step.
    pub fn through(self, moved: [bool; 3], step: &Step) -> Stepped
        ensures moved { result.moved ≡ moved }
        ensures image { result.image ≡ through moved step.now self.image }
    {
        match *step {
            Step::Offset(by) => self.offset(moved, by),
            Step::Scale(by) => self.scale(moved, by),
            Step::Mirror(named) => self.moved_by(moved, |a| self.axis(a).mirrored(named[a])),
            Step::Turn(plane, angle) => self.turn(moved, plane, angle),
        }
    }
}
