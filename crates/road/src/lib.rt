// The road graph as it is lent, its limits, the refusals, and every check.
//
// A check looks at what it is lent and changes nothing; it may ask that the checks before it
// passed. The chains take any input.
#![tactic(auto)]

mod arcs;
mod bounds;
mod chains;
mod counts;
mod drive;
mod lending;
mod lengths;
mod order;
mod sets;
mod starts;
mod telling;

pub use arcs::check_arcs;
pub use bounds::{check_k, overlay_limits, road_limits};
pub use chains::{
    check_cover_input, check_drive_input, check_graph, check_lone_set, check_road_and_set,
};
pub use counts::arcs_on_path;
pub use drive::check_drive;
pub use lengths::{check_length, check_lengths, check_set_size, check_sizes};
pub use order::check_order;
pub use sets::{check_in_set, check_nodes, check_set};
pub use starts::check_starts;

// A count of nodes. It and the count of arcs are structs of their own by document 01, so that neither
// is taken for the other.
#[derive(Clone, Copy, PartialEq, Eq, PartialOrd, Ord, Debug)]
pub struct NodeCount(pub usize);

// A count of arcs. It is never added to a count of nodes nor compared with one: `arcs_on_path`
// converts.
#[derive(Clone, Copy, PartialEq, Eq, PartialOrd, Ord, Debug)]
pub struct ArcCount(pub usize);

// A graph: n + 1 starts, m heads, m weights. It may hold anything until it is checked; `row` asks for a
// tail that has one, `joined` for a graph that passed. No model: tried, and a proof then has two names
// for one list.
#[derive(Clone, Copy)]
pub struct Graph<'a> {
    pub starts: &'a [u32],
    pub heads: &'a [u32],
    pub weights: &'a [u32],
}

// A graph that is lent to be written. No model either.
#[derive(Drop)]
pub struct GraphMut<'a> {
    pub starts: &'a mut [u32],
    pub heads: &'a mut [u32],
    pub weights: &'a mut [u32],
}

// The places from `first` up to, but not including, `end`. Not std's `Range`, which is not `Copy`.
#[derive(Clone, Copy)]
pub struct Span {
    pub first: usize,
    pub end: usize,
}

// What a graph may have at most: the road's limits, or the overlay's.
#[derive(Clone, Copy)]
pub struct Limits {
    pub arcs: ArcCount,
    pub weight: u32,
}

// Why a call is refused. `number_of` in specs/ gives each its number.
#[derive(Clone, Copy, PartialEq, Eq, Debug)]
pub enum Refusal {
    Sizes = 1,
    Starts = 2,
    Arcs = 3,
    K = 4,
    Order = 5,
    Set = 6,
    Overlay = 7,
    Node = 8,
    Outside = 9,
    Drive = 10,
    Lengths = 11,
    Room = 12,
    Line = 13,
}
