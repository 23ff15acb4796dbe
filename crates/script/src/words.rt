// The words of a line, parted by single spaces.
ghost use Rattle.std.specs.Prelude.{◌≡◌, ◌==◌, not, is_some, position, Some, IfNone};
ghost use Rattle.script.specs.Words.{NoSpace, Took, bytes_of};

/// What is left of a line; none once its last word has been taken.
// The library's `split` is no plainer here: its type names its closure's, so each method that takes words would need a parameter for it.
#[derive(Clone, Copy)]
pub struct Words<'a> {
    rest: Option<&'a [u8]>,
}

// Where the first space stands.
fn first_space(line: &[u8]) -> Option<usize>
    ensures first { result ≡ position (λ b. b == 32) line.now }
    ensures none { IfNone result (NoSpace line.now) }
{
    line.iter().position(|b| *b == b' ')
}

impl<'a> Words<'a> {
    pub fn of(line: &'a [u8]) -> Words<'a>
        ensures { bytes_of (λ t. t.now) result.rest ≡ Some line.now }
    {
        Words { rest: Some(line) }
    }

    /// The next word, which is empty between two spaces; none past the last.
    pub fn take_word(&mut self) -> Option<&'a [u8]>
        ensures { Took (bytes_of (λ t. t.now) self.old.rest) (bytes_of (λ t. t.now) result) (bytes_of (λ t. t.now) self.new.rest) }
    {
        let line = self.rest?;
        match first_space(line) {
            Some(n) => {
                self.rest = Some(&line[n + 1..]);
                Some(&line[..n])
            }
            None => {
                self.rest = None;
                Some(line)
            }
        }
    }

    /// Whether every word has been taken.
    pub fn at_end(&self) -> bool
        ensures { result ≡ not (is_some self.now.rest) }
    {
        self.rest.is_none()
    }
}
