// A call of a shift, and what is seen of it.
use questions::question::{Question, Told};
use translator::reply::{Reading, Reply};
use units::axis::Point;
use units::fault::Fault;

/// A call with its arguments.
#[derive(Clone, Copy)]
pub enum Call<'a> {
    Block(&'a [u8]),
    Entry { frame: i64, offset: Point },
    Reset,
    Read,
    Ask(Question),
}

/// What a call is answered that is not declined.
#[derive(Clone, Copy)]
pub enum Answer {
    Replied(Reply),
    Told(Told),
}

/// The answer to a call, and what a reading tells after it.
#[derive(Clone, Copy)]
pub struct Seen {
    pub answer: Result<Answer, Fault>,
    pub reading: Reading,
}
