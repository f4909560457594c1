// Runs that ask for origins: for each pixel that comes out, the row and the column of the input pixel that it is. Their starts, and which calls on them are refused. Such a run is one of a plan of
// one stage, and beside its cells it is lent as many columns. The state is that of any run: `stop` and the read-out take it as it is.
#![tactic(auto)]

mod starts; // starts.rt: the starts
pub mod judging; // judging.rt: which steps are refused
pub mod only; // only.rt: the plan's one stage

pub use starts::{
    start_open_origins, start_open_origins_numbers, start_origins, start_origins_numbers,
};
