// Any end's visit, used at an end with two work areas on top.
ghost use Rattle.machine.specs.Meaning.{topped};
ghost use Rattle.machine.specs.Scale.{scale_meaning};
ghost use Rattle.machine.specs.Visits.{Visited};

use machine::area::WorkArea;
use machine::scale::ScaleEnd;
use machine::visit::{Visit, visit_all};
use units::axis::Point;

pub fn visit_pile(pile: &mut WorkArea<WorkArea<ScaleEnd>>, points: &[Point]) -> Visit
    ensures { Visited (topped pile.old.own (topped pile.old.below.own (scale_meaning pile.old.below.below.increment.units pile.old.below.below.bounds pile.old.below.below.position))) points.now result (topped pile.new.own (topped pile.new.below.own (scale_meaning pile.new.below.below.increment.units pile.new.below.below.bounds pile.new.below.below.position))) }
{
    visit_all(pile, points)
}
