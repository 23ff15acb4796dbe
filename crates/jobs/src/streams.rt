// A job script on standard input, its answers on standard output.
use crate::job::run;
use std::io;
use std::io::{Read, Write};

/// Reads the whole script, works it, and writes all answers at once.
pub fn work_input(rt: &HostRuntime) -> io::Result<()> {
    let mut input = Vec::new(rt.alloc());
    rt.stdin().read_to_end(&mut input)?;
    let answers = run(rt.alloc(), input.as_slice())?;
    rt.stdout().write_all(answers.as_bytes())
}
