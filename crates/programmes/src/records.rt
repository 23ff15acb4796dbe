// What the rolls of a programme hold.
use frames::image::Image;
use rolls::record::Record;
use units::fault::Fault;

/// A block by its start in the text, with what was told of it.
#[derive(Clone, Copy)]
pub struct BlockRecord<T> {
    pub start: usize,
    pub told: T,
}

/// An accepted block that moved, with the three targets and their spreads.
pub type MoveRecord = BlockRecord<Image>;

/// A declined block, with why.
pub type DeclineRecord = BlockRecord<Fault>;

impl<T> Record for BlockRecord<T> {
    ghost start_of = { λ r. r.start };

    fn start(&self) -> usize {
        self.start
    }
}
