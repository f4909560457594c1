// The program: the job that standard input has is run, and its answer goes to standard output. What failed was said as it failed.
#![tactic(auto)]

use program::{standard_input, standard_output};

fn main(rt: HostRuntime) {
    let _ = program::run(&rt, standard_input(&rt), standard_output(&rt));
}
