// A whole programme text, and what its rolls then hold.
use crate::answers::{AtByte, Declined, Targets};
use crate::job::Job;
use crate::report::Report;
use frames::image::Image;
use machine::end::MachineEnd;
use programmes::records::{DeclineRecord, MoveRecord};
use programmes::work::work_text;
use rolls::roll::Roll;
use script::call::Capacities;
use std::alloc::AllocError;
use std::fmt;
use translator::translator::Translator;
use units::fault::Fault;

// A text has no more lines than bytes, so a roll needs no more places than that.
fn room(capacity: u64, text: &[u8]) -> usize {
    text.len().min(capacity as usize)
}

impl Report {
    fn say_at<D: fmt::Display + Drop>(&mut self, start: usize, said: D) -> Result<(), AllocError> {
        self.say(AtByte { start, said })
    }

    // Both rolls in the order of their blocks.
    fn say_records(
        &mut self,
        moves: &[MoveRecord],
        declines: &[DeclineRecord],
    ) -> Result<(), AllocError> {
        let mut declines = declines.iter().peekable();
        for m in moves {
            while let Some(d) = declines.next_if(|d| d.start < m.start) {
                self.say_at(d.start, Declined(d.told))?;
            }
            self.say_at(m.start, Targets(m.told))?;
        }
        for d in declines {
            self.say_at(d.start, Declined(d.told))?;
        }
        Ok(())
    }
}

impl Job {
    /// Works a programme text over the translator, and tells the records of its rolls and how it ended.
    pub(crate) fn work_programme<E: MachineEnd>(
        &mut self,
        translator: &mut Translator<E>,
        text: &[u8],
        rolls: Capacities,
    ) -> Result<(), AllocError> {
        let blank_move = MoveRecord {
            start: 0,
            told: Image::default(),
        };
        let blank_decline = DeclineRecord {
            start: 0,
            told: Fault::Argument,
        };
        let mut moves = vec![in self.heap; blank_move; room(rolls.moves, text)]?;
        let mut declines = vec![in self.heap; blank_decline; room(rolls.declines, text)]?;
        let mut move_roll = Roll::new(moves.as_mut_slice());
        let mut decline_roll = Roll::new(declines.as_mut_slice());
        let told = work_text(translator, text, &mut move_roll, &mut decline_roll);
        let moved = move_roll.count();
        let declined = decline_roll.count();
        self.report.say_records(&moves.as_slice()[..moved], &declines.as_slice()[..declined])?;
        self.report.answer(told.map(|()| "worked"))
    }
}
