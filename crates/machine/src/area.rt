// The work area: a box of its own on top of any end.
use crate::bounds::Bounds;

pub mod layer;
pub mod limits;

/// A layer over any end: its own box, and the end below.
#[derive(Drop)]
pub struct WorkArea<E> {
    own: Bounds,
    below: E,
}
