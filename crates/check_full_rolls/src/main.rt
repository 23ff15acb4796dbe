// A programme whose move roll is too small: its records, and where the work stopped.
// A program of its own, since one input and output is stored for each.
#![tactic(auto)]

use jobs::streams::work_input;
use std::io;

fn main(rt: HostRuntime) -> io::Result<()> {
    work_input(&rt)
}
