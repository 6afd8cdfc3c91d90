// Turning a graph round.
#![tactic(auto)]

mod turning;

pub use turning::turn;
