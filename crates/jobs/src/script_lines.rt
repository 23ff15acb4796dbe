// The lines of a script that are calls, right or wrong.
use lines::reader::LineReader;
use script::call::{Call, Capacities};
use script::line::{call, passed_over};
use std::alloc::{AllocError, Global};

/// A line with its number, counted from 1 over all lines, and its call; none where it is not understood.
/// `rolls` are the capacities in force, and `behind` is all that follows the line.
#[derive(Clone, Copy)]
pub struct ScriptLine<'a> {
    pub number: usize,
    pub call: Option<Call<'a>>,
    pub rolls: Capacities,
    pub behind: &'a [u8],
}

/// The lines of a script up to a `check`, and the text behind that.
#[derive(Drop)]
pub struct Script<'a> {
    pub lines: Vec<ScriptLine<'a>>,
    pub checked: Option<&'a [u8]>,
}

pub fn read_script<'a>(heap: Global, input: &'a [u8]) -> Result<Script<'a>, AllocError> {
    let mut lines = Vec::new(heap);
    let mut rolls = Capacities::default();
    let mut reader = LineReader::new(input);
    // No `for`: what is behind a line is asked of the reader in between.
    while let Some(line) = reader.next_line() {
        if passed_over(line.bytes) {
            continue;
        }
        let call = call(line.bytes);
        let behind = reader.rest();
        match call {
            Some(Call::Check) => return Ok(Script {
                lines,
                checked: Some(behind),
            }),
            Some(Call::Rolls(capacities)) => rolls = capacities,
            _ => {}
        }
        lines.push(ScriptLine {
            number: line.number,
            call,
            rolls,
            behind,
        })?;
    }
    Ok(Script {
        lines,
        checked: None,
    })
}
