// Thinned drives: of a drive over the road, the positions that the van sends.
#![tactic(auto)]

mod calls;
mod picking;

pub use calls::thin;

// A count of a drive's positions. It is neither a count of nodes, since a drive may come back to a
// node, nor one of arcs.
#[derive(Clone, Copy)]
pub struct PositionCount(pub usize);
