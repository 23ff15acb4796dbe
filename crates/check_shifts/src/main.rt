// A table of shifts: the worked examples of the rules, edges of each range, and random shifts.
// A program of its own, since one input and output is stored for each.
#![tactic(auto)]

use jobs::streams::work_input;
use std::io;

fn main(rt: HostRuntime) -> io::Result<()> {
    work_input(&rt)
}
