// Whole jobs: each file j000, j001, .. of data/ goes through the program. A line with its name, the answer's bytes, and a line end.
use crate::files;
use program::{input_of, standard_output};
use std::io;

// Runs job n, and says whether there is one. What the run comes to is in its answer.
fn one(rt: &HostRuntime, out: &impl Print, n: u8) -> io::Result<bool> {
    let Some(from) = files::open(rt, out, 'j', n)? else {
        return Ok(false);
    };
    println!(out; "")?;
    let _ = program::run(rt, input_of(from), standard_output(rt));
    println!(out; "")?;
    Ok(true)
}

pub fn all(rt: &HostRuntime, out: &impl Print) -> io::Result<()> {
    for n in 0..255 {
        if !one(rt, out, n)? {
            break;
        }
    }
    Ok(())
}
