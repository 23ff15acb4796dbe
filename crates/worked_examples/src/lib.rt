//! Worked examples of whole shifts, proved of the definitions that the translator's contracts cite.
#![tactic(auto)]

ghost use Rattle.worked_examples.specs.Examples.{Examples};

/// Every example of specs/Examples.antt holds.
pub fn worked_examples_stand()
    ensures { Examples }
{}
