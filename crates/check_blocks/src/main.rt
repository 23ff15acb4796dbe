// A table of blocks, checked: every decline of a block, every place rule, both edges of every range.
// A program of its own, since one input and output is stored for each.
#![tactic(auto)]

use jobs::streams::work_input;
use std::io;

fn main(rt: HostRuntime) -> io::Result<()> {
    work_input(&rt)
}
