// Reading a text line by line.
ghost use Rattle.std.specs.Prelude.{◌≡◌, ℕ, ◌-◌, ◌≤◌, length, drop, ◌==◌};
ghost use Rattle.std.specs.Iterator.{at_most};
ghost use Rattle.std.specs.List.{position};
ghost use Rattle.lines.specs.Lines.{Reads};

/// A line without the byte that ends it: where it begins in the text, and its number, counted from 1.
#[derive(Clone, Copy)]
pub struct Line<'a> {
    pub bytes: &'a [u8],
    pub start: usize,
    pub number: usize,
}

/// A text and a place in it, never beyond its length: what stands before the place has been read, in so many lines.
// The text and a place in it, not what is left of it: the place is told with each line.
#[derive(Clone, Copy)]
pub struct LineReader<'a> {
    text: &'a [u8],
    place: usize,
    count: usize,
    ghost within: { place ≤ length text.now },
    ghost counted: { count ≤ place },
}

// Where the first byte 10 stands.
fn first_end(text: &[u8]) -> Option<usize>
    ensures { result ≡ position (λ b. b == 10) text.now }
{
    text.iter().position(|b| *b == b'\n')
}

impl<'a> LineReader<'a> {
    /// A reader at the start of the text.
    pub fn new(text: &'a [u8]) -> LineReader<'a>
        ensures same { result.text.now ≡ text.now }
        ensures start { result.place ≡ 0 }
        ensures count { result.count ≡ 0 }
    {
        LineReader {
            text,
            place: 0,
            count: 0,
        }
    }

    /// The next line; none at the end of the text.
    pub fn next_line(&mut self) -> Option<Line<'a>>
        ensures same { self.new.text.now ≡ self.old.text.now }
        ensures reads { Reads self.old.text.now self.old.place self.old.count result self.new.place self.new.count }
    {
        let text = self.text;
        let start = self.place;
        if start == text.len() {
            return None;
        }
        let left = &text[start..];
        let end = start + first_end(left).unwrap_or(left.len());
        self.place = (end + 1).min(text.len());
        self.count += 1;
        Some(Line {
            bytes: &text[start..end],
            start,
            number: self.count,
        })
    }

    /// What has not been read.
    pub fn rest(&self) -> &'a [u8]
        ensures { result.now ≡ drop self.now.place self.now.text.now }
    {
        let text = self.text;
        &text[self.place..]
    }
}

impl<'a> Iterator for LineReader<'a> {
    type Item = Line<'a>;

    ghost next_gives = { λ s l t. (t.text.now ≡ s.text.now) × Reads s.text.now s.place s.count l t.place t.count };

    ghost remaining = { λ s. at_most (length s.text.now - s.place) };

    fn next(&mut self) -> Option<Line<'a>> {
        self.next_line()
    }
}
