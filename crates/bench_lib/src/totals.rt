// What is kept of a worked text, so that two programs can be compared.
use frames::image::Image;
use translator::reply::Reply;
use units::fault::{Decline, Fault};

/// How many blocks moved and how many were declined, and the sums of what was told.
#[repr(C)]
pub struct Totals {
    pub moves: u64,
    pub declines: u64,
    pub targets: i64,
    pub spreads: u64,
    pub faults: u64,
}

// Two functions for two types: a trait with an impl for each would be longer.
fn fold(sum: u64, value: u64) -> u64 {
    sum.wrapping_mul(31).wrapping_add(value)
}

fn fold_signed(sum: i64, value: i64) -> i64 {
    sum.wrapping_mul(31).wrapping_add(value)
}

impl Totals {
    fn add_image(&mut self, image: &Image) {
        for (at, spread) in image.at.iter().zip(&image.spread) {
            self.targets = fold_signed(self.targets, *at);
            self.spreads = fold(self.spreads, *spread);
        }
    }

    fn add_decline(&mut self, d: Decline) {
        let values = [
            u64::from(d.number),
            d.layer as u64,
            d.place as u64,
            u64::from(d.axis),
            u64::from(d.step),
            u64::from(d.level),
        ];
        for value in values {
            self.faults = fold(self.faults, value);
        }
    }

    /// A block that moved counts with its targets and spreads, a declined one with its fault.
    pub(crate) fn add(&mut self, answer: Result<Reply, Fault>) {
        match answer {
            Ok(reply) => {
                if reply.moved.iter().any(|moved| *moved) {
                    self.moves = self.moves.wrapping_add(1);
                    self.add_image(&reply.image);
                }
            }
            Err(fault) => {
                self.declines = self.declines.wrapping_add(1);
                self.add_decline(fault.decline());
            }
        }
    }
}
