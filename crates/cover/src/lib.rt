// The cover: pruning, and the call that picks the points.
#![tactic(auto)]

mod calls;
mod pruning;

pub use calls::cover;
use road::GraphMut;

// What the cover call works in: room for the graph turned round, and three entries for each node.
// Whatever they held, they are zeros after a cover. The room is a `&mut` itself: of a struct of
// slices within this one a caller would not learn what its slices hold.
#[derive(Drop)]
pub struct Work<'a, 'b> {
    pub back: &'b mut GraphMut<'a>,
    pub marks: &'b mut [u8],
    pub pieces: &'b mut [u32],
    pub sizes: &'b mut [u32],
}
