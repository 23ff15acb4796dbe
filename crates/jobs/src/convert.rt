// From the numbers of a line to what a call takes; out of range is 17.
ghost use Rattle.std.specs.Prelude.{◌≡◌, ◌&&◌, pos};
ghost use Rattle.machine.specs.Made.{MadeWhere};
ghost use Rattle.jobs.specs.Ends.{limits_fit, written_fits, all_fit, Fitting, AllFitting, line_makes_end, EndMade};
ghost use Rattle.jobs.specs.Conversions.{tolerance_asked, shift_call_of};

use machine::bounds::Bounds;
use machine::count::CountEnd;
use machine::motors::Increments;
use machine::scale::ScaleEnd;
use script::call::{Call, Limits};
use shifts::call::Call as ShiftCall;
use units::axis::Point;
use units::fault::Fault;
use units::quantity::Tolerance;

/// An end that a line makes.
#[derive(Drop)]
pub enum MadeEnd {
    Scale(ScaleEnd),
    Count(CountEnd),
}

pub fn tolerance(units: i64) -> Result<Tolerance, Fault>
    ensures { result ≡ tolerance_asked units }
{
    u64::try_from(units)
        .ok()
        .and_then(Tolerance::new)
        .ok_or(Fault::Argument)
}

pub fn bounds(limits: Limits) -> Result<Bounds, Fault>
    ensures { MadeWhere (limits_fit limits) (λ b. (b.lower ≡ limits.lower) × (b.upper ≡ limits.upper)) result }
{
    Bounds::new(limits.lower, limits.upper)
}

fn increment(units: i64) -> Result<u32, Fault>
    ensures { Fitting units result }
{
    u32::try_from(units).map_err(|_| Fault::Argument)
}

// By name: `?` ends it at the first that is out of range.
fn increments(units: Point) -> Result<Increments, Fault>
    ensures { AllFitting units result }
{
    Ok(Increments {
        x: increment(units.x)?,
        y: increment(units.y)?,
        z: increment(units.z)?,
    })
}

fn scale_end(units: i64, limits: Limits) -> Result<ScaleEnd, Fault>
    ensures { MadeWhere (limits_fit limits && written_fits units) (λ _. Unit {0}) result }
{
    let bounds = bounds(limits)?;
    ScaleEnd::new(increment(units)?, bounds)
}

fn count_end(units: Point, limits: Limits) -> Result<CountEnd, Fault>
    ensures { MadeWhere (limits_fit limits && all_fit units) (λ _. Unit {0}) result }
{
    let bounds = bounds(limits)?;
    CountEnd::new(increments(units)?, bounds)
}

/// The end that a line makes, or why it makes none; none where it is another call.
pub fn end_call(call: Option<Call>) -> Option<Result<MadeEnd, Fault>>
    ensures { EndMade (line_makes_end call.entry) result }
{
    match call? {
        Call::ScaleEnd { increment, limits } => Some(scale_end(increment, limits).map(
            MadeEnd::Scale,
        )),
        Call::CountEnd { increments, limits } => Some(count_end(increments, limits).map(
            MadeEnd::Count,
        )),
        _ => None,
    }
}

/// The call of a shift that a line makes; none where it is another call.
// Case by case: a script is read without the translator, so its calls can hold none of a shift.
pub fn shift_call(call: Option<Call<'_>>) -> Option<ShiftCall<'_>>
    ensures { result ≡ shift_call_of call.entry }
{
    match call? {
        Call::Block(bytes) => Some(ShiftCall::Block(bytes)),
        Call::Entry { frame, offset } => Some(ShiftCall::Entry { frame, offset }),
        Call::Reset => Some(ShiftCall::Reset),
        Call::Read => Some(ShiftCall::Read),
        Call::Ask(question) => Some(ShiftCall::Ask(question)),
        _ => None,
    }
}
