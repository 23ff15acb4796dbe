// Pushing a point: each step, the tests after it, and the whole chain.
ghost use Rattle.std.specs.Prelude.{◌≡◌, ℕ, ◌+◌, ◌<◌, Bool, IfOk};
ghost use Rattle.chains.specs.Chains.{steps_of};
ghost use Rattle.frames.specs.Pushing.{first_axis, is_beyond, is_wide, tested as passed, pushed, on_all, started};
ghost use Rattle.frames.specs.Axes.{GivesAt, image_of};
ghost use Rattle.frames.specs.Theorems.{Sound, Limited};

use crate::image::Image;
use crate::tested::{Stepped, Tested};
use chains::chain::Chain;
use units::axis::Axis;
use units::fault::Fault;
use units::quantity::{Length, Tolerance};

/// How far a coordinate may lie from 0.
const FAR: u64 = 2_000_000_000;

/// The step told with the settable offset.
const SETTABLE: u8 = 9;

const AXES: [Axis; 3] = [Axis::X, Axis::Y, Axis::Z];

/// Steps are told from 1, the outermost.
fn step_number(place: usize) -> u8
    requires { place < 8 }
    ensures { result ≡ place + 1 }
{
    place as u8 + 1
}

/// The first axis of which the test is true.
fn first_axis<F: Fn(usize) -> bool>(test: F) -> Option<Axis>
    requires { (a : ℕ) → a < 3 → F.pre test a }
    ensures { (f : ℕ → Bool) → GivesAt (F.post test) f → result ≡ first_axis f }
{
    // By index over the axes: a rule of the project for the tests.
    for a in 0..3 {
        if test(a) {
            return Some(AXES[a]);
        }
    }
    None
}

impl Stepped {
    fn first_beyond(&self) -> Option<Axis>
        ensures { result ≡ first_axis (is_beyond self.now.moved self.now.image) }
    {
        first_axis(|a| self.moved[a] && self.image.at[a].unsigned_abs() > FAR)
    }

    fn first_wide(&self, tolerance: Tolerance) -> Option<Axis>
        ensures { result ≡ first_axis (is_wide self.now.moved tolerance.units self.now.image) }
    {
        first_axis(|a| self.moved[a] && self.image.spread[a] > tolerance.units)
    }

    /// 13 over the axes, then 14, each in axis order.
    #[tactic(auto, using(crate::proofs::Passing::passed_near, crate::proofs::Passing::passed_small))]
    fn tested(self, step: u8, tolerance: Tolerance) -> Result<Tested, Fault>
        ensures { image_of result ≡ passed step self.moved tolerance.units self.image }
    {
        if let Some(axis) = self.first_beyond() {
            return Err(Fault::Beyond {
                place: 0,
                axis,
                step,
            });
        }
        if let Some(axis) = self.first_wide(tolerance) {
            return Err(Fault::Spread {
                place: 0,
                axis,
                step,
            });
        }
        Ok(Tested { image: self.image })
    }
}

/// The workpiece values themselves, with spreads of 0.
pub fn unpushed(values: [Length; 3]) -> Image
    ensures { result ≡ started values }
{
    Image {
        at: values.map(|v| v.units),
        spread: [0; 3],
    }
}

impl Tested {
    /// The workpiece values.
    fn start(values: [Length; 3]) -> Tested
        ensures { result.image ≡ started values }
    {
        Tested {
            image: unpushed(values),
        }
    }
}

/// The settable offset names all three axes.
fn on_all(offset: [Length; 3]) -> [Option<Length>; 3]
    ensures { result ≡ on_all offset }
{
    offset.map(Some)
}

/// The workpiece values through the chain, from the innermost step to step 1, and then by the settable offset (all 0
/// where no settable frame is selected). An axis that is not moved is neither pushed nor tested.
pub fn push(
    chain: &Chain,
    moved: [bool; 3],
    values: [Length; 3],
    offset: [Length; 3],
    tolerance: Tolerance,
) -> Result<Image, Fault>
    ensures told { result ≡ pushed (steps_of chain.now) moved tolerance.units offset values }
    ensures sound { IfOk result (Sound (steps_of chain.now) moved offset values) }
    ensures limited { IfOk result (Limited moved tolerance.units values) }
{
    let mut p = Tested::start(values);
    // By index: a rule of the project for pushing, and a step is told by its place.
    for i in (0..chain.count).rev() {
        p = p
            .through(moved, &chain.steps[i])
            .tested(step_number(i), tolerance)?;
    }
    p.offset(moved, on_all(offset))
        .tested(SETTABLE, tolerance)
        .map(|p| p.image)
}
