// A map: the graph that the arcs read make, its cover, its overlay, and its lines.
#![tactic(auto)]

mod calls;
mod lists;
mod printing;

pub use calls::{find_cover, find_distance, find_overlay};
pub use lists::write_starts;
pub use printing::{write_arcs, write_points};
