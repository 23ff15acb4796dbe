// Which axes a block moves, and where to.
ghost use Rattle.std.specs.Prelude.{◌≡◌};
ghost use Rattle.chains.specs.Chains.{steps_of};
ghost use Rattle.workpiece.specs.Settable.{records_of};
ghost use Rattle.workpiece.specs.Plans.{named_by, moved_in, standings, is_open, is_far, values_at, placed as placed_by, values_or, image_in, kept_at, kept, kept_image, reckoned, opening_all};

use crate::axes::{each_axis, first_of};
use crate::force::InForce;
use crate::places::{all_open, placed_at, standing};
use crate::setup::Frames;
use blocks::types::Distance;
use frames::image::Image;
use frames::push::{push, unpushed};
use units::fault::Fault;
use units::quantity::Length;

/// What a move does, before the machine is asked: which axes move, the workpiece values then, and the three targets with their spreads.
#[derive(Clone, Copy)]
pub struct Plan {
    pub moved: [bool; 3],
    pub values: [Option<Length>; 3],
    pub image: Image,
}

impl Plan {
    /// The same move, after which all axes are open.
    pub fn opening_all(self) -> Plan
        ensures { result ≡ opening_all self }
    {
        Plan {
            values: all_open(),
            ..self
        }
    }
}

fn named_by(words: [Option<Length>; 3]) -> [bool; 3]
    ensures { result ≡ named_by words }
{
    words.map(|word| word.is_some())
}

fn standings_of(
    distance: Distance,
    words: [Option<Length>; 3],
    values: [Option<Length>; 3],
) -> [Option<i64>; 3]
    ensures { result ≡ standings distance words values }
{
    each_axis(words, values, |word, value| standing(distance, word, value))
}

fn is_open(moved: bool, at: Option<i64>) -> bool
    ensures { result ≡ is_open moved at }
{
    moved && at.is_none()
}

fn is_far(moved: bool, at: Option<i64>) -> bool
    ensures { result ≡ is_far moved at }
{
    at.is_some_and(|z| moved && z.unsigned_abs() > Length::MOST)
}

// A function of its own: the proof of `placed` does not close over the `map`.
fn values_at(at: [Option<i64>; 3]) -> [Option<Length>; 3]
    ensures { result ≡ values_at at }
{
    at.map(placed_at)
}

// 12, then 13 at step 0, over the moved axes.
fn placed(moved: [bool; 3], at: [Option<i64>; 3]) -> Result<[Option<Length>; 3], Fault>
    ensures { result ≡ placed_by moved at }
{
    if let Some(axis) = first_of(each_axis(moved, at, is_open)) {
        return Err(Fault::Open { place: 0, axis });
    }
    if let Some(axis) = first_of(each_axis(moved, at, is_far)) {
        return Err(Fault::Beyond {
            place: 0,
            axis,
            step: 0,
        });
    }
    Ok(values_at(at))
}

// An axis that is open is not moved, so its 0 is neither pushed nor tested.
fn values_or(values: [Option<Length>; 3]) -> [Length; 3]
    ensures { result ≡ values_or values }
{
    values.map(|value| value.unwrap_or(Length::zero()))
}

fn kept_at<T: Copy>(moved: bool, new: T, old: T) -> T
    ensures { result ≡ kept_at moved new old }
{
    if moved { new } else { old }
}

// Written out: the proof of a closure over the index does not close where the values are signed, as targets are.
fn kept<T: Copy>(moved: [bool; 3], new: [T; 3], old: [T; 3]) -> [T; 3]
    ensures { (d : T) → result ≡ kept d moved new old }
{
    [
        kept_at(moved[0], new[0], old[0]),
        kept_at(moved[1], new[1], old[1]),
        kept_at(moved[2], new[2], old[2]),
    ]
}

// An axis that does not move keeps target and spread.
fn kept_image(moved: [bool; 3], new: Image, old: Image) -> Image
    ensures { result ≡ kept_image moved new old }
{
    Image {
        at: kept(moved, new.at, old.at),
        spread: kept(moved, new.spread, old.spread),
    }
}

impl Frames {
    fn moved_in(&self, force: InForce, named: [bool; 3]) -> [bool; 3]
        ensures { result ≡ moved_in force (steps_of self.now.chain) named }
    {
        if force.chained {
            self.chain.moved_axes(named)
        } else {
            named
        }
    }

    fn image_in(
        &self,
        force: InForce,
        moved: [bool; 3],
        values: [Length; 3],
    ) -> Result<Image, Fault>
        ensures { result ≡ image_in force (steps_of self.now.chain) (records_of self.now.settable) self.now.tolerance moved values }
    {
        if force.chained {
            let offset = self.settable.offset(force.settable);
            push(&self.chain, moved, values, offset, self.tolerance)
        } else {
            Ok(unpushed(values))
        }
    }

    /// The plan of a block's axis words under what is in force; 12, 13 and 14 in their order.
    pub fn reckon(
        &self,
        force: InForce,
        distance: Distance,
        words: [Option<Length>; 3],
        values: [Option<Length>; 3],
        image: Image,
    ) -> Result<Plan, Fault>
        ensures { result ≡ reckoned force (steps_of self.now.chain) (records_of self.now.settable) self.now.tolerance distance words values image }
    {
        let moved = self.moved_in(force, named_by(words));
        let values = placed(moved, standings_of(distance, words, values))?;
        let pushed = self.image_in(force, moved, values_or(values))?;
        Ok(Plan {
            moved,
            values,
            image: kept_image(moved, pushed, image),
        })
    }
}
