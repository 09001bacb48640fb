// Runs the cases of request T-01, and compares all that a burst leaves with what the same single steps leave.
//
// `stdout` has what must come, derived by hand from documents 01 and 02, as the remarks in data/cases say.
#![tactic(auto)]

mod lines;
mod pair;
mod play;
mod single;

use std::io;

fn main(rt: HostRuntime) -> io::Result<()> {
    lines::run_lines(&rt)
}
