// What the programs print alike: the answer of a call.
#![tactic(auto)]

use road::Refusal;
use std::fmt::Display;
use std::io;

// The answer after its label, or why the call refuses.
pub fn tell<T: Display + Drop>(
    rt: &impl Print,
    label: &str,
    answer: Result<T, Refusal>,
) -> io::Result<()> {
    match answer {
        Ok(value) => print!(rt; " {label}{value}"),
        Err(why) => print!(rt; " {why}"),
    }
}
