//! Texts with what is told of them, over a scale end of increment 100 and limits ±50,000,000, tolerance 100.
#![tactic(auto)]

use frames::image::Image;
use machine::bounds::Bounds;
use machine::scale::ScaleEnd;
use programmes::records::{DeclineRecord, MoveRecord};
use programmes::work::work_text;
use rolls::roll::Roll;
use translator::translator::Translator;
use units::axis::Point;
use units::fault::Fault;
use units::quantity::Tolerance;

#[cfg(test)]
mod tests;

/// How the work ended (number and place where not all lines were worked), what the rolls count, the first record of each at or after the byte 1 (start, and X target or number).
#[derive(Clone, Copy, PartialEq, Debug)]
pub struct Outcome {
    pub told: Result<(), (u8, usize)>,
    pub moves: usize,
    pub declines: usize,
    pub moved: Option<(usize, i64)>,
    pub declined: Option<(usize, u8)>,
}

// As the benchmark's: no test rests on a benchmark.
fn end() -> Result<ScaleEnd, Fault> {
    let corner = |at: i64| Point {
        x: at,
        y: at,
        z: at,
    };
    ScaleEnd::new(100, Bounds::new(corner(-50_000_000), corner(50_000_000))?)
}

fn number_and_place(fault: Fault) -> (u8, usize) {
    let d = fault.decline();
    (d.number, d.place)
}

fn work_into(
    text: &[u8],
    move_places: &mut [MoveRecord],
    moves_used: usize,
    decline_places: &mut [DeclineRecord],
    declines_used: usize,
) -> Result<Outcome, Fault> {
    let tolerance = Tolerance::new(100).ok_or(Fault::Argument)?;
    let mut translator = Translator::new(end()?, tolerance);
    let mut moves = Roll::new(move_places);
    let mut declines = Roll::new(decline_places);
    moves.resume(moves_used)?;
    declines.resume(declines_used)?;
    let answer = work_text(&mut translator, text, &mut moves, &mut declines);
    Ok(Outcome {
        told: answer.map_err(number_and_place),
        moves: moves.count(),
        declines: declines.count(),
        moved: moves
            .find(1)
            .map(|record| (record.start, record.told.at[0])),
        declined: declines
            .find(1)
            .map(|record| (record.start, record.told.decline().number)),
    })
}

/// Works a text into two rolls of 4 places, of which some are used already.
pub fn work_into_rolls(
    text: &[u8],
    moves_used: usize,
    declines_used: usize,
) -> Result<Outcome, Fault> {
    let told = Image::default();
    let mut moves = [MoveRecord { start: 0, told }; 4];
    let told = Fault::Argument;
    let mut declines = [DeclineRecord { start: 0, told }; 4];
    work_into(text, &mut moves, moves_used, &mut declines, declines_used)
}

/// The same into rolls without places.
pub fn without_places(text: &[u8]) -> Result<Outcome, Fault> {
    work_into(text, &mut [], 0, &mut [], 0)
}
