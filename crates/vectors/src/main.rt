// The cases of document 01 that are run, and not proved: a line for each vector, then the lines of data/ with what their steps tell, and its jobs with what the program answers;
// compared with the file stdout.
#![tactic(auto)]

use show::Quiet;
use std::io;

mod files; // files.rt: the files of data/
mod firm; // firm.rt: the firmware's one-row filter
mod jobs; // jobs.rt: whole jobs
mod kind; // kind.rt: the two kinds of sample
mod lines; // lines.rt: whole lines
mod steps; // steps.rt: lines step by step

fn all(rt: &HostRuntime, out: &impl Print) -> io::Result<()> {
    steps::starts::<u8>(out)?;
    steps::line_p(out)?;
    steps::out_of_turn(out)?;
    steps::starts::<f32>(out)?;
    steps::case_12(out)?;
    steps::zeros(out)?;
    firm::rows(out)?;
    firm::refusals(out)?;
    println!(out; "lines")?;
    lines::all::<u8>(rt, out)?;
    lines::longest(out)?;
    lines::all::<f32>(rt, out)?;
    println!(out; "jobs")?;
    jobs::all(rt, out)
}

fn main(rt: HostRuntime) {
    let _ = all(&rt, &Quiet(&rt));
}
