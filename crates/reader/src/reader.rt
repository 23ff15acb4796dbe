// The reader of a block: it stands at a place of the caller's bytes.
ghost use Rattle.std.specs.Prelude.{◌≡◌, ℕ, ◌<◌, ◌≤◌, length, ◌≢◌, slice_index};
ghost use Rattle.reader.specs.Runs.{Stop, Fresh, Apart};
ghost use Rattle.reader.specs.Pieces.{Reads};

use crate::types::{Piece, Word};
use crate::word::read_word;
use units::fault::Fault;

/// A block and a place in it, never beyond its length: what stands before the place has been read.
// The bytes and a place in them, by a rule of the project: the place is told with each word.
#[derive(Clone, Copy)]
pub struct BlockReader<'a> {
    bytes: &'a [u8],
    place: usize,
    ghost within: { place ≤ length bytes.now },
    ghost fresh: { Fresh bytes.now place },
    ghost apart: { Apart bytes.now place },
}

// How many bytes at the front are neither space nor `;`.
fn run_len(s: &[u8]) -> usize
    ensures within { result ≤ length s.now }
    ensures all { (k : ℕ) → k < result → Stop (slice_index s.now k) → ⊥ }
    ensures stops { result < length s.now → Stop (slice_index s.now result) }
{
    s.iter().take_while(|&&b| b != b' ' && b != b';').count()
}

// How many bytes at the front are spaces.
fn gap_len(s: &[u8]) -> usize
    ensures within { result ≤ length s.now }
    ensures all { (k : ℕ) → k < result → slice_index s.now k ≡ 32 }
    ensures stops { result < length s.now → slice_index s.now result ≢ 32 }
{
    s.iter().take_while(|&&b| b == b' ').count()
}

impl<'a> BlockReader<'a> {
    /// A reader at the start of the block.
    pub fn new(bytes: &'a [u8]) -> BlockReader<'a>
        ensures same { result.bytes.now ≡ bytes.now }
        ensures start { result.place ≡ 0 }
    {
        BlockReader { bytes, place: 0 }
    }

    // The next run without space or `;`, or the comment.
    fn piece(&mut self) -> Option<Piece<'a>>
        ensures same { self.new.bytes.now ≡ self.old.bytes.now }
        ensures reads { Reads self.old.bytes.now self.old.place self.new.place result }
    {
        let bytes = self.bytes;
        let place = self.place + gap_len(&bytes[self.place..]);
        let rest = &bytes[place..];
        match rest {
            [] => {
                self.place = place;
                None
            }
            [b';', ..] => {
                self.place = bytes.len();
                Some(Piece::Comment { text: rest, place })
            }
            _ => {
                let end = place + run_len(rest);
                self.place = end;
                Some(Piece::Run {
                    text: &bytes[place..end],
                    place,
                })
            }
        }
    }
}

/// The words and the comment, each as it is read, or why a word is declined.
impl<'a> Iterator for BlockReader<'a> {
    ghost use Rattle.std.specs.Prelude.{◌≡◌, ◌-◌, length};
    ghost use Rattle.std.specs.Iterator.{at_most};
    ghost use Rattle.reader.specs.Pieces.{WordRead};

    type Item = Result<Word<'a>, Fault>;

    ghost next_gives = { λ r read after. (after.bytes.now ≡ r.bytes.now) × WordRead r.bytes.now r.place after.place read };

    ghost remaining = { λ r. at_most (length r.bytes.now - r.place) };

    /// The next word or the comment, or why that word is declined; none at the end.
    fn next(&mut self) -> Option<Result<Word<'a>, Fault>> {
        match self.piece()? {
            Piece::Run { text, place } => Some(read_word(text, place)),
            Piece::Comment { text, place } => Some(Ok(Word::Comment { text, place })),
        }
    }
}
