// The rows and cases of 01 that are not proved of the definitions: run, and printed as 01 states them. The case of a replay is run by `replay`.
#![tactic(auto)]

mod boards;
mod copies;
mod plans;

use std::io;

fn main(rt: HostRuntime) -> io::Result<()> {
    plans::rows(&rt)?;
    copies::cases(&rt)?;
    boards::table(&rt)
}
