// One search: the least weights from a source over paths with no blocked node strictly inside.
#![tactic(auto)]

mod heap;
mod labels;

pub use labels::search;
use road::Graph;

// The queue of the nodes that wait, in two slices that C lends as they are: a heap of the nodes,
// each as its number + 1, and each node's place in it, + 1. They are zeros when nothing waits.
// Built field by field: tried with a constructor, and the proof didn't close, since a slice lent
// through two calls in a row comes back with its length alone.
#[derive(Drop)]
pub struct Queue<'a> {
    pub heap: &'a mut [u32],
    pub places: &'a mut [u32],
    pub waiting: usize,
}

// What a search asks: the graph, a byte for each node that says whether it is blocked (C lends the
// bytes as they are), the source.
#[derive(Clone, Copy)]
pub struct Ask<'a> {
    pub graph: Graph<'a>,
    pub blocked: &'a [u8],
    pub source: usize,
}
