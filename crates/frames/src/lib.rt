// The frame program's state, and what each line does to it.
#![tactic(auto)]

mod answering;
mod building;
mod lending;
mod loading;
mod steps;

use readings::{MOST_ARCS, MOST_NODES};
use road::{ArcCount, Graph, NodeCount};
pub use steps::{first, take_end, take_line, take_unended};

// How many starts there are at most, and arcs of an overlay.
pub const MOST_STARTS: usize = MOST_NODES + 1;

pub const OVER_ROOM: usize = 4096;

// A graph that is being read: the head's numbers, and how many arcs are read.
#[derive(Clone, Copy)]
pub struct Load {
    pub n: NodeCount,
    pub m: ArcCount,
    pub k: NodeCount,
    pub count: ArcCount,
}

// The sizes of a map: its nodes, its arcs, and the arcs of its overlay.
#[derive(Clone, Copy)]
pub struct Sizes {
    pub n: NodeCount,
    pub m: ArcCount,
    pub over: ArcCount,
}

// How far the program is.
#[derive(Clone, Copy)]
pub enum Phase {
    Begun,
    Loading(Load),
    Asking(Sizes),
    Stopped,
}

// What it keeps from line to line beside the areas: how far it is, and how many lines are read.
#[derive(Clone, Copy)]
pub struct State {
    pub phase: Phase,
    pub lines: usize,
}

// A map that is lent, each part at its size: the graph, the cover and the overlay.
#[derive(Clone, Copy)]
pub(crate) struct Lent<'a> {
    pub(crate) graph: Graph<'a>,
    pub(crate) set: &'a [u8],
    pub(crate) overlay: Graph<'a>,
}

// What the program is lent, each at its limit: the arcs as they are read, their starts, the cover
// and the overlay. What is read or built stands at the front of each. They are fixed arrays, for
// nothing is taken from the heap.
#[derive(Drop)]
pub struct Areas {
    pub tails: [u32; MOST_ARCS],
    pub heads: [u32; MOST_ARCS],
    pub weights: [u32; MOST_ARCS],
    pub starts: [u32; MOST_STARTS],
    pub set: [u8; MOST_NODES],
    pub over_starts: [u32; MOST_STARTS],
    pub over_heads: [u32; OVER_ROOM],
    pub over_weights: [u32; OVER_ROOM],
}
