// What a line of bytes is read as.
#![tactic(auto)]

mod bytes;
mod characters;

pub use bytes::read_line;
use road::{ArcCount, NodeCount};

// The limits of the program: nodes, arcs, and nodes of a drive.
pub const MOST_NODES: usize = 512;

pub const MOST_ARCS: usize = 2048;

pub const MOST_DRIVE: usize = 64;

// What a line says. Of a drive it is how many nodes it has: the nodes stay in the caller's slice, of
// which the contract tells every entry.
#[derive(Clone, Copy)]
pub enum Line {
    Head {
        n: NodeCount,
        m: ArcCount,
        k: NodeCount,
    },
    Arc {
        tail: u32,
        head: u32,
        weight: u32,
    },
    Question {
        from: u32,
        to: u32,
    },
    Drive(usize),
}
