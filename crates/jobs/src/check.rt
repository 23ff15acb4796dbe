// Checking a programme text block by block.
ghost use Rattle.std.specs.Prelude.{◌≡◌, ℕ, ◌+◌, ◌^◌, ◌<◌};
ghost use Rattle.jobs.specs.Checks.{counted, inch_after};

use crate::answers::{AtByte, Declined};
use crate::report::Report;
use crate::says::Says;
use blocks::block::typed_block;
use blocks::rules::in_inches;
use blocks::types::Block;
use lines::reader::LineReader;
use programmes::work::LONGEST;
use std::alloc::AllocError;
use std::fmt;
use units::fault::Fault;

/// What is said of a block.
#[derive(Clone, Copy)]
struct Judged(Result<Block, Fault>);

impl fmt::Display for Judged {
    fn fmt<W: fmt::Write>(&self, f: &mut fmt::Formatter<W>) -> fmt::Result {
        match self.0 {
            Ok(block) => {
                let says = Says(block);
                write!(f, "right{says}")
            }
            Err(fault) => f.write(Declined(fault)),
        }
    }
}

/// How many blocks are right and how many declined.
#[derive(Clone, Copy, Default)]
struct Tally {
    right: usize,
    declined: usize,
}

impl fmt::Display for Tally {
    fn fmt<W: fmt::Write>(&self, f: &mut fmt::Formatter<W>) -> fmt::Result {
        let right = self.right;
        let declined = self.declined;
        write!(f, "{right} right, {declined} declined")
    }
}

impl Tally {
    fn with(self, block: Result<Block, Fault>) -> Tally
        requires { self.right + self.declined + 1 < 2 ^ 64 }
        ensures { result ≡ counted self block }
    {
        match block {
            Ok(_) => Tally {
                right: self.right + 1,
                ..self
            },
            Err(_) => Tally {
                declined: self.declined + 1,
                ..self
            },
        }
    }
}

// Whether inches are in force after a block.
fn inch_after(block: Result<Block, Fault>, inch: bool) -> bool
    ensures { result ≡ inch_after block inch }
{
    match block {
        Ok(Block::Ordinary(ordinary)) => in_inches(inch, ordinary.selections.unit),
        _ => inch,
    }
}

fn check_blocks(text: &[u8], report: &mut Report) -> Result<(), AllocError> {
    let mut inch = false;
    let mut tally = Tally::default();
    for line in LineReader::new(text) {
        let block = typed_block(line.bytes, inch);
        report.say(AtByte {
            start: line.start,
            said: Judged(block),
        })?;
        tally = tally.with(block);
        inch = inch_after(block, inch);
    }
    report.say(tally)
}

/// Tells of every block of a programme text what it says or why it is declined.
pub fn check(text: &[u8], report: &mut Report) -> Result<(), AllocError> {
    if text.len() > LONGEST {
        return report.say(Declined(Fault::Argument));
    }
    check_blocks(text, report)
}
