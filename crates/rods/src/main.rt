// The question "too worn", asked by the calls and by those that C programs link, each way with a question of its own.
// A line for each call tells what it gave, and all of the question after it; compared with the file stdout.
#![tactic(auto)]

use show::Quiet;
use std::io;

mod bands; // bands.rt: pictures of which only a band is counted
mod pairs; // pairs.rt: pictures of 2 columns and 3 rows
mod starts; // starts.rt: starts, taken and refused
mod states; // states.rt: questions that no call made
mod ways; // ways.rt: the two ways, and what is told of a call

fn all(rt: &impl Print) -> io::Result<()> {
    pairs::limits(rt)?;
    pairs::after_yes(rt)?;
    pairs::refusals(rt)?;
    bands::rows(rt)?;
    bands::sides(rt)?;
    starts::extents(rt)?;
    starts::sizes(rt)?;
    starts::empty_bands(rt)?;
    starts::orders(rt)?;
    states::rows(rt)?;
    states::sums(rt)?;
    states::sizes(rt)?;
    states::extents(rt)?;
    states::orders(rt)?;
    states::largest(rt)
}

fn main(rt: HostRuntime) {
    let _ = all(&Quiet(&rt));
}
