// Times planning and a host's calls. Standard input says how many times each plan is planned, and each call is made 500 times as often; where it
// says nothing, each is done once, and what is printed is always the same. With a number, each line also has the nanoseconds of processor time that
// one of them took.
#![tactic(auto)]

mod hosts;
mod networks;
mod planning;
mod timing;

use std::io;

fn main(rt: HostRuntime) -> io::Result<()> {
    let rounds = timing::rounds(rt.stdin())?;
    planning::times(&rt, rounds)?;
    hosts::times(&rt, rounds % 1_000_000 * 500)
}
