// Distances: the handheld question over a set and its overlay, and the any-pair question over the
// road graph too. A distance is an Option: None where there is no way.
#![tactic(auto)]

mod asking;
mod calls;
mod checking;
mod sums;
mod through;

pub use calls::{any_pair, handheld};

// The work that the handheld question is lent, as C lends it.
#[derive(Drop)]
pub struct HandWork<'a> {
    pub labels: &'a mut [u64],
    pub heap: &'a mut [u32],
    pub places: &'a mut [u32],
    pub touched: &'a mut [u32],
    pub blocked: &'a mut [u8],
}

// The work that the any-pair question is lent: room for the graph turned round, the rows from s and
// into t, and what the handheld question works in.
// All slices: tried with a graph and a hand's work within, and the proof didn't close, since of a
// struct within this one a caller does not learn what its slices hold. Tried with a `&mut` to each:
// here it proves, but the borrow checker does not cover the any-pair call of gulvane then.
#[derive(Drop)]
pub struct PairWork<'a> {
    pub starts: &'a mut [u32],
    pub heads: &'a mut [u32],
    pub weights: &'a mut [u32],
    pub outward: &'a mut [u64],
    pub inward: &'a mut [u64],
    pub labels: &'a mut [u64],
    pub heap: &'a mut [u32],
    pub places: &'a mut [u32],
    pub touched: &'a mut [u32],
    pub blocked: &'a mut [u8],
}

// What ways through the overlay are made of: the set, the row of labels from s and the row into t,
// bytes and numbers as C lends them.
#[derive(Clone, Copy)]
struct Ways<'a> {
    set: &'a [u8],
    outward: &'a [u64],
    inward: &'a [u64],
    s: usize,
    t: usize,
}
