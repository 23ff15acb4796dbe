// A programme with offsets and a turn, as a manual prints it: its records.
// A program of its own, since one input and output is stored for each.
#![tactic(auto)]

use jobs::streams::work_input;
use std::io;

fn main(rt: HostRuntime) -> io::Result<()> {
    work_input(&rt)
}
