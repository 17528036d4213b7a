// A line for the answer to each call, and the state after it: the calls of standard input, and calls drawn from a seed.
#![tactic(auto)]

mod calls;
mod drawn;
mod networks;
mod rows;
mod show;

use std::io;

fn main(rt: HostRuntime) -> io::Result<()> {
    rows::each(&rt, rt.stdin())?;
    drawn::many(&rt, 1, 2, 400)?;
    drawn::many(&rt, 2, 1, 400)
}
