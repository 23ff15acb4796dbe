// The rules over a whole block, 6, 7 and 8, and what a right block says.
ghost use Rattle.std.specs.Prelude.{◌≡◌, None, Bool, Option, [], ◌∷◌};
ghost use Rattle.blocks.specs.Rules.{misplaced_in, unfit_with, unfit_by, unfit_in, inch_under, measure_by, measure_under, bad_axis, bad_rpl, lesser, place_if, out_of_range_in, Tests};
ghost use Rattle.reader.specs.declared.types.Number.{Number as Numbers};
ghost use Rattle.blocks.specs.declared.gathered.Measured.{Measured as Words};
ghost use Rattle.blocks.specs.Typed.{length_at, factor_at, angle_at, each, lengths as lengths_of, step_of, change_by, made_by, made_under, ruled, judged_in, lacking_in};

use crate::gathered::{Gathered, Instruction, Measure, Measured, Order, Placed, Slots, StepKind};
use crate::measures::{angle, factor, length};
use crate::types::{Block, FrameChange, FrameStep, LengthUnit, Ordinary};
use reader::types::Number;
use units::axis::ByAxis;
use units::fault::Fault;
use units::quantity::{Angle, Factor, Length};

// 6: the leftmost word that stands where it may not.
fn misplaced(o: &Order) -> Option<usize>
    ensures { result ≡ misplaced_in o.now }
{
    if o.instruction.is_some() {
        o.stray
    } else {
        o.late
    }
}

// 7: an unwanted word is there, or a wanted one lacks where it is needed.
fn unfit_with(needed: bool, wanted: bool, unwanted: bool) -> bool
    ensures { result ≡ unfit_with needed wanted unwanted }
{
    unwanted || (needed && !wanted)
}

fn unfit(by: Instruction, axes: bool, rpl: bool) -> bool
    ensures { result ≡ unfit_by by axes rpl }
{
    match by {
        Instruction::Frame {
            kind: StepKind::Turn,
            additive,
        } => unfit_with(additive, rpl, axes),
        Instruction::Frame { additive, .. } => unfit_with(additive, axes, rpl),
        Instruction::Limit(_) => unfit_with(true, axes, rpl),
    }
}

fn unfit_place(o: &Order, rpl: Option<Measured>) -> Option<usize>
    ensures { result ≡ unfit_in o.now rpl }
{
    match o.instruction {
        Some(i) => unfit(i.by, o.axis.is_some(), rpl.is_some()).then_some(i.place),
        None => rpl.map(|word| word.place),
    }
}

/// Whether inches are in force: by G70 or G71 of the block itself, else as before.
pub fn in_inches(inch: bool, unit: Option<LengthUnit>) -> bool
    ensures { result ≡ inch_under inch unit }
{
    unit.map_or(inch, |unit| unit == LengthUnit::Inch)
}

// What the numbers of a block with an instruction are.
fn measure(by: Instruction, inch: bool) -> Measure
    ensures { result ≡ measure_by by inch }
{
    match by {
        Instruction::Frame {
            kind: StepKind::Turn,
            ..
        } => Measure::Angle,
        Instruction::Frame {
            kind: StepKind::Scale,
            ..
        } => Measure::Factor,
        Instruction::Frame {
            kind: StepKind::Mirror,
            ..
        } => Measure::Any,
        Instruction::Frame {
            kind: StepKind::Offset,
            ..
        }
        | Instruction::Limit(_) => Measure::Length { inch },
    }
}

fn bad_axis(m: Measure, n: Number) -> bool
    ensures { result ≡ bad_axis m n }
{
    match m {
        Measure::Length { inch } => length(inch, n).is_none(),
        Measure::Factor => factor(n).is_none(),
        Measure::Angle | Measure::Any => false,
    }
}

fn bad_rpl(m: Measure, n: Number) -> bool
    ensures { result ≡ bad_rpl m n }
{
    match m {
        Measure::Angle => angle(n).is_none(),
        _ => false,
    }
}

fn lesser_place(a: Option<usize>, b: Option<usize>) -> Option<usize>
    ensures { result ≡ lesser a b }
{
    match (a, b) {
        (Some(p), Some(q)) => Some(p.min(q)),
        _ => a.or(b),
    }
}

// Where a word's number is bad.
fn place_where<F: FnOnce(Number) -> bool>(word: Option<Measured>, bad: F) -> Option<usize>
    requires { F.IsAlwaysCallable bad }
    ensures { (test : Numbers → Bool) → Tests (F.post bad) test → result ≡ place_if test word }
{
    word.filter(|w| bad(w.number)).map(|w| w.place)
}

// What is made of each axis's word, in the order X, Y, Z, in which arrays go on.
fn each<V, F: Fn(Option<Measured>) -> V>(words: &ByAxis<Option<Measured>>, make: F) -> [V; 3]
    requires { F.IsAlwaysCallable make }
    ensures { (x y z : V) × F.post make words.now.x x × F.post make words.now.y y × F.post make words.now.z z × (result ≡ x ∷ y ∷ z ∷ []) }
{
    [make(words.x), make(words.y), make(words.z)]
}

// 8: the leftmost number out of range.
fn out_of_range(m: Measure, s: &Slots) -> Option<usize>
    ensures { result ≡ out_of_range_in m s.now }
{
    let [x, y, z] = each(&s.axes, |w| place_where(w, |n| bad_axis(m, n)));
    let rpl = place_where(s.rpl, |n| bad_rpl(m, n));
    lesser_place(x, lesser_place(y, lesser_place(z, rpl)))
}

fn length_at(inch: bool, word: Option<Measured>) -> Option<Length>
    ensures { result ≡ length_at inch word }
{
    word.and_then(|w| length(inch, w.number))
}

fn factor_at(word: Option<Measured>) -> Option<Factor>
    ensures { result ≡ factor_at word }
{
    word.and_then(|w| factor(w.number))
}

// A bare ROT empties the chain, whatever angle stands here.
fn angle_at(word: Option<Measured>) -> Angle
    ensures { result ≡ angle_at word }
{
    word.and_then(|w| angle(w.number))
        .unwrap_or(Angle { ticks: 0 })
}

fn lengths(inch: bool, a: &ByAxis<Option<Measured>>) -> [Option<Length>; 3]
    ensures { result ≡ lengths_of inch a.now }
{
    each(a, |w| length_at(inch, w))
}

fn step(kind: StepKind, inch: bool, s: &Slots) -> FrameStep
    ensures { result ≡ step_of kind inch s.now }
{
    match kind {
        StepKind::Offset => FrameStep::Offset(lengths(inch, &s.axes)),
        StepKind::Turn => FrameStep::Turn(angle_at(s.rpl)),
        StepKind::Scale => FrameStep::Scale(each(&s.axes, factor_at)),
        StepKind::Mirror => FrameStep::Mirror(each(&s.axes, |w| w.is_some())),
    }
}

// An additive name appends its step; another replaces the chain, or empties it where it stands bare.
fn change(additive: bool, worded: bool, step: FrameStep) -> FrameChange
    ensures { result ≡ change_by additive worded step }
{
    if additive {
        return FrameChange::Append(step);
    }
    if worded {
        return FrameChange::Replace(step);
    }
    FrameChange::Empty
}

fn instructed(i: Placed, inch: bool, g: &Gathered) -> Block
    ensures { result ≡ made_by i.by i.place inch g.now.slots g.now.order }
{
    let place = i.place;
    match i.by {
        Instruction::Frame { kind, additive } => {
            let worded = g.order.axis.is_some() || g.slots.rpl.is_some();
            Block::Frame {
                change: change(additive, worded, step(kind, inch, &g.slots)),
                place,
            }
        }
        Instruction::Limit(side) => Block::Limit {
            side,
            values: lengths(inch, &g.slots.axes),
            place,
        },
    }
}

// The leftmost word whose number made no length. Its values are there already, so it is no `out_of_range`.
fn lacking_place(a: &ByAxis<Option<Measured>>, values: [Option<Length>; 3]) -> Option<usize>
    ensures { result ≡ lacking_in a.now values }
{
    let x = place_where(a.x, |_| values[0].is_none());
    let y = place_where(a.y, |_| values[1].is_none());
    let z = place_where(a.z, |_| values[2].is_none());
    lesser_place(x, lesser_place(y, z))
}

// 8 in a block without an instruction, else the block: its lengths are worked out once.
fn ordinary(inch: bool, g: &Gathered) -> Result<Block, Fault>
    ensures { result ≡ ruled None None (out_of_range_in (measure_under None inch) g.now.slots) (made_under None inch g.now.slots g.now.order) }
{
    let words = lengths(inch, &g.slots.axes);
    match lacking_place(&g.slots.axes, words) {
        Some(place) => Err(Fault::Range { place }),
        None => Ok(Block::Ordinary(Ordinary {
            selections: g.slots.groups.selections,
            machine: g.slots.groups.machine,
            words,
            first: g.order.axis,
            ends: g.slots.ms.ends,
        })),
    }
}

/// 6, then 7, then 8, else what the block says.
pub fn judge(inch: bool, g: &Gathered) -> Result<Block, Fault>
    ensures { result ≡ judged_in inch g.now.slots g.now.order }
{
    let inches = in_inches(inch, g.slots.groups.selections.unit);
    if let Some(place) = misplaced(&g.order) {
        return Err(Fault::Misplaced { place });
    }
    if let Some(place) = unfit_place(&g.order, g.slots.rpl) {
        return Err(Fault::Unfit { place });
    }
    let Some(i) = g.order.instruction else {
        return ordinary(inches, g);
    };
    if let Some(place) = out_of_range(measure(i.by, inches), &g.slots) {
        return Err(Fault::Range { place });
    }
    Ok(instructed(i, inches, g))
}
