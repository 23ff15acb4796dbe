// The calls of a roll. Its questions take it for writing too, and change nothing.
ghost use Rattle.std.specs.Prelude.{◌≡◌, ℕ, ◌+◌, ◌<◌, length, slice_set};
ghost use Rattle.rolls.specs.Rolls.{RollState, roll_of, records_of, is_full, room_for, appended, Filed, resume_told, resumed, nth_of, first_from, First};

use super::Roll;
use crate::record::Record;
use units::fault::Fault;

impl<'a, R: Copy> Roll<'a, R> {
    /// A roll without records over the caller's places.
    pub fn new(places: &'a mut [R]) -> Roll<'a, R>
        ensures empty { roll_of result ≡ record { places = places.entry.now; count = 0 } }
        ensures lent { result.places.ghost_name ≡ places.entry.ghost_name }
    {
        Roll { places, count: 0 }
    }

    /// Takes the first places, as many as told, for records that stand there already; 17 where there are fewer places.
    pub fn resume(&mut self, count: usize) -> Result<(), Fault>
        ensures told { result ≡ resume_told (roll_of self.old) count }
        ensures left { roll_of self.new ≡ resumed (roll_of self.old) count }
        ensures lent { self.new.places.ghost_name ≡ self.old.places.ghost_name }
    {
        if count > self.places.len() {
            return Err(Fault::Argument);
        }
        self.count = count;
        Ok(())
    }

    // The records so far.
    fn records(&self) -> &[R]
        ensures { result.now ≡ records_of (roll_of self.now) }
    {
        &self.places[..self.count]
    }

    /// How many records there are.
    pub fn count(&mut self) -> usize
        ensures told { result ≡ length (records_of (roll_of self.old)) }
        ensures same { self.new ≡ self.old }
    {
        self.count
    }

    /// Whether no place is left.
    pub fn is_full(&mut self) -> bool
        ensures told { result ≡ is_full (roll_of self.old) }
        ensures same { self.new ≡ self.old }
    {
        self.places.len() <= self.count
    }

    // Writes the next free place.
    fn put(&mut self, r: R)
        requires { self.old.count < length self.old.places.now }
        ensures left { roll_of self.new ≡ record { places = slice_set self.old.places.now self.old.count r; count = self.old.count + 1 } }
        ensures lent { self.new.places.ghost_name ≡ self.old.places.ghost_name }
    {
        self.places[self.count] = r;
        self.count += 1;
    }

    /// The nth record, from 0; 17 past the count.
    pub fn nth(&mut self, n: usize) -> Result<R, Fault>
        ensures told { result ≡ nth_of (records_of (roll_of self.old)) n }
        ensures same { self.new ≡ self.old }
    {
        self.records().get(n).copied().ok_or(Fault::Argument)
    }
}

impl<'a, R: Record + Copy> Roll<'a, R> {
    /// Puts a record at the next free place; 16 where there is none, and then nothing changes.
    pub fn append(&mut self, r: R) -> Result<(), Fault>
        ensures told { result ≡ room_for R.start_of (roll_of self.old) r }
        ensures left { roll_of self.new ≡ appended (roll_of self.old) r }
        ensures filed { Filed (roll_of self.old) r (roll_of self.new) }
        ensures lent { self.new.places.ghost_name ≡ self.old.places.ghost_name }
    {
        if self.count >= self.places.len() {
            return Err(Fault::RollFull { start: r.start() });
        }
        self.put(r);
        Ok(())
    }

    /// The first record whose block starts at a byte or after it.
    pub fn find(&mut self, byte: usize) -> Option<R>
        ensures told { result ≡ first_from R.start_of (records_of (roll_of self.old)) byte }
        ensures first { First R.start_of (records_of (roll_of self.old)) byte result }
        ensures same { self.new ≡ self.old }
    {
        self.records().iter().copied().find(|r| r.start() >= byte)
    }
}
