// What is proved of the definitions alone.
ghost use Rattle.frames.specs.Theorems.{Growth};
ghost use Rattle.frames.specs.Laws.{FourQuarters, MirrorTwice};
ghost use Rattle.frames.specs.Examples.{Examples};

/// How spreads grow where no scale enlarges, with no spread tested on the way.
#[tactic(auto, using(crate::proofs::Growth::growth))]
pub fn growth_stands()
    ensures { Growth }
{}

/// Four quarter turns about an offset give back the point.
pub fn four_quarters_stand()
    ensures { FourQuarters }
{}

/// A mirror twice gives back the point.
#[tactic(auto, using(crate::proofs::Giving::mirror_twice))]
pub fn mirror_twice_stands()
    ensures { MirrorTwice }
{}

/// The worked examples hold of the definitions.
#[tactic(auto, using(crate::proofs::Worked::all_examples))]
pub fn examples_stand()
    ensures { Examples }
{}
