// The program: works a job script from standard input.
#![tactic(auto)]

use jobs::streams::work_input;
use std::io;

fn main(rt: HostRuntime) -> io::Result<()> {
    work_input(&rt)
}
