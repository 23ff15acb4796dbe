// A translator over a machine end.
use machine::area::WorkArea;
use workpiece::setup::Setup;

pub mod block_calls;
pub mod calls;

/// The setup of a job, and the pile that its targets go to: one work area over the end that was given.
// No `Model`: what an end means has a function in it, its rounding, and what a model shows may hold none.
#[derive(Drop)]
pub struct Translator<E> {
    pile: WorkArea<E>,
    setup: Setup,
}
