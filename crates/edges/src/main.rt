// The edges that document 01 names, the numbers of inner functions, and how many nodes the search
// takes, a line for each case.
//
// The file stdout is written from the rules and from how many nodes each search can reach, not from
// what this program prints, so that the two are compared.
#![tactic(auto)]

mod graphs;
mod numbers;
mod rules;
mod takes;

use std::io;

fn main(rt: HostRuntime) -> io::Result<()> {
    rules::checks(&rt)?;
    rules::rooms(&rt)?;
    numbers::limits(&rt)?;
    numbers::refusals(&rt)?;
    numbers::counts(&rt)?;
    numbers::overlays(&rt)?;
    takes::lines(&rt)
}
