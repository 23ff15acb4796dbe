//! Pushing compared with an outside computation.
#![tactic(auto)]

pub mod cases;

use chains::chain::Chain;
use chains::step::Step;
use frames::image::Image;
use frames::push::push;
use turns::numbers::work::turn_numbers;
use units::axis::Plane;
use units::fault::Fault;
use units::quantity::{Angle, Factor, Length, Tolerance};

/// A step in plain numbers; an axis that it does not name has none.
// Three options and no array of them: a constant that holds references may have no array of enums in it.
#[derive(Clone, Copy)]
pub enum Raw {
    Offset(Option<i64>, Option<i64>, Option<i64>),
    Scale(Option<u32>, Option<u32>, Option<u32>),
    Mirror([bool; 3]),
    Turn(Plane, u32),
}

#[derive(Clone, Copy)]
pub struct Case {
    pub steps: &'static [Raw],
    pub moved: [bool; 3],
    pub values: [i64; 3],
    pub offset: [i64; 3],
    pub tolerance: u64,
    pub told: Result<Image, Refused>,
}

#[derive(Clone, Copy, PartialEq, Eq, Debug)]
pub struct Refused {
    pub number: u8,
    pub axis: u8,
    pub step: u8,
}

impl From<Fault> for Refused {
    fn from(fault: Fault) -> Self {
        let told = fault.decline();
        Refused {
            number: told.number,
            axis: told.axis,
            step: told.step,
        }
    }
}

// Written out, so that `?` ends it at the first that is no length.
fn lengths(units: [i64; 3]) -> Option<[Length; 3]> {
    Some([
        Length::new(units[0])?,
        Length::new(units[1])?,
        Length::new(units[2])?,
    ])
}

fn step(raw: Raw) -> Option<Step> {
    let step = match raw {
        Raw::Offset(x, y, z) => Step::Offset([x, y, z].map(|by| by.and_then(Length::new))),
        Raw::Scale(x, y, z) => Step::Scale([x, y, z].map(|by| by.and_then(Factor::new))),
        Raw::Mirror(named) => Step::Mirror(named),
        Raw::Turn(plane, ticks) => Step::Turn(plane, Angle::new(ticks)?),
    };
    Some(step)
}

/// The chain of the steps, appended one by one; none where a number is out of its range or a step is declined.
pub fn chain(steps: &[Raw]) -> Option<Chain> {
    let mut all = Chain::empty();
    for raw in steps {
        all.append(step(*raw)?).ok()?;
    }
    Some(all)
}

/// What the case comes to; none where one of its numbers is out of its range.
pub fn told(case: &Case) -> Option<Result<Image, Refused>> {
    let steps = chain(case.steps)?;
    let values = lengths(case.values)?;
    let offset = lengths(case.offset)?;
    let tolerance = Tolerance::new(case.tolerance)?;
    Some(push(&steps, case.moved, values, offset, tolerance).map_err(Refused::from))
}

/// Cosine and sine of so many ticks.
pub fn numbers(ticks: u32) -> Option<(i64, i64)> {
    let n = turn_numbers(Angle::new(ticks)?);
    Some((n.cosine, n.sine))
}

/// A chain of n mirrors of X.
pub fn mirrors(n: usize) -> Chain {
    let mut all = Chain::empty();
    for _ in 0..n {
        let _ = all.append(Step::Mirror([true, false, false]));
    }
    all
}

/// Whether the step is appended, or the decline's number; then the number of steps.
pub fn appended(chain: Chain, raw: Raw) -> Option<(Result<(), u8>, usize)> {
    let mut all = chain;
    let told = all
        .append(step(raw)?)
        .map_err(|fault| fault.decline().number);
    Some((told, all.count()))
}

#[cfg(test)]
mod tests {
    use crate::cases::{CASES, NUMBERS};
    use crate::{Raw, appended, chain, mirrors, numbers, told};
    use units::axis::Plane;

    #[test]
    fn pushes(rt: HostRuntime) {
        for case in CASES {
            assert_eq!(rt; told(case), Some(case.told));
        }
    }

    #[test]
    fn turn_numbers_are_nearest(rt: HostRuntime) {
        for (ticks, cosine, sine) in NUMBERS {
            assert_eq!(rt; numbers(*ticks), Some((*cosine, *sine)));
        }
    }

    // The ninth step gets 10; a turn onto an innermost turn of its plane is no ninth step.
    #[test]
    fn lengths(rt: HostRuntime) {
        let turn = Raw::Turn(Plane::Xy, 5);
        assert_eq!(rt; appended(mirrors(7), turn), Some((Ok(()), 8)));
        assert_eq!(rt; appended(mirrors(8), turn), Some((Err(10), 8)));
        assert_eq!(rt;
            appended(mirrors(8), Raw::Mirror([true, false, false])),
            Some((Err(10), 8))
        );
        let offset = Raw::Offset(Some(5), None, None);
        let other = Raw::Turn(Plane::Zx, 5);
        let full = chain(&[
            offset, offset, offset, offset, offset, offset, offset, other,
        ])
        .expect(&rt, "eight steps");
        assert_eq!(rt; full.count(), 8);
        assert_eq!(rt;
            appended(full, Raw::Turn(Plane::Zx, 3_599_995)),
            Some((Ok(()), 8))
        );
        assert_eq!(rt; appended(full, turn), Some((Err(10), 8)));
        assert_eq!(rt; appended(full, offset), Some((Err(10), 8)));
        let merged = chain(&[other, other, offset, other, other]).expect(&rt, "five steps");
        assert_eq!(rt; merged.count(), 3);
    }

    #[test]
    fn axes(rt: HostRuntime) {
        let c = chain(&[Raw::Turn(Plane::Zx, 0), Raw::Offset(None, Some(0), None)]).expect(
            &rt,
            "two steps",
        );
        assert_eq!(rt; c.touched(), [true, true, true]);
        assert_eq!(rt; c.moved_axes([true, false, false]), [true, false, true]);
        assert_eq!(rt; c.moved_axes([false, true, false]), [false, true, false]);
        let d = chain(&[Raw::Turn(Plane::Xy, 1_800_000), Raw::Turn(Plane::Yz, 9)]).expect(
            &rt,
            "two steps",
        );
        assert_eq!(rt; d.moved_axes([false, false, true]), [true, true, true]);
        assert_eq!(rt; d.moved_axes([false, false, false]), [false, false, false]);
        let e = chain(&[
            Raw::Scale(Some(1), None, None),
            Raw::Mirror([false, false, true]),
        ])
        .expect(&rt, "two steps");
        assert_eq!(rt; e.touched(), [true, false, true]);
        assert_eq!(rt; e.moved_axes([true, false, false]), [true, false, false]);
    }
}
