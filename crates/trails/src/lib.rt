// The path under trial, and the search that tries to complete it.
#![tactic(auto)]

mod search;
mod under_trial;

use road::NodeCount;
pub use search::{inward, longest};

// The path under trial: at most 32 nodes, in the order in which they were met. It goes in by value
// and comes back longer: this is the project's form.
#[derive(Clone, Copy)]
pub struct Trail {
    pub nodes: [u32; 32],
    pub count: NodeCount,
}
