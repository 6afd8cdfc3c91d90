// The small graphs P1 to P12 through the calls, a line for each.
//
// The file stdout is written from document 01, not from what this program prints, so that the two are
// compared.
#![tactic(auto)]

mod asking;

use asking::{cover, distance, drive, overlay};
use road::Graph;
use std::io;

const ONE_NODE: Graph<'static> = Graph {
    starts: &[0, 0],
    heads: &[],
    weights: &[],
};

// 0 to 4, each joined to the next both ways.
const LINE: Graph<'static> = Graph {
    starts: &[0, 1, 3, 5, 7, 8],
    heads: &[1, 0, 2, 1, 3, 2, 4, 3],
    weights: &[5, 5, 7, 7, 9, 9, 11, 11],
};

const BOTH_WAYS: Graph<'static> = Graph {
    starts: &[0, 1, 2],
    heads: &[1, 0],
    weights: &[1, 1],
};

// 0 to 1 to 2 to 0.
const RING: Graph<'static> = Graph {
    starts: &[0, 1, 2, 3],
    heads: &[1, 2, 0],
    weights: &[1, 2, 4],
};

// 0 to 1, and 0 to 2 to 1, which is lighter.
const WEDGE: Graph<'static> = Graph {
    starts: &[0, 2, 2, 3],
    heads: &[1, 2, 1],
    weights: &[10, 3, 4],
};

// The set {2} of three nodes.
const ONLY_TWO: [u8; 3] = [0, 0, 1];

fn covers(rt: &impl Print) -> io::Result<()> {
    print!(rt; "P1:")?;
    cover(rt, &ONE_NODE, 1, &[0])?;
    print!(rt; "\nP2:")?;
    cover(rt, &ONE_NODE, 2, &[0])?;
    print!(rt; "\nP3:")?;
    cover(rt, &LINE, 2, &[0, 1, 2, 3, 4])?;
    print!(rt; "\nP4:")?;
    cover(rt, &LINE, 2, &[1, 3, 0, 2, 4])?;
    print!(rt; "\nP5:")?;
    cover(rt, &LINE, 3, &[0, 1, 2, 3, 4])?;
    print!(rt; "\nP6:")?;
    cover(rt, &LINE, 5, &[0, 1, 2, 3, 4])?;
    print!(rt; "\nP7:")?;
    cover(rt, &LINE, 6, &[0, 1, 2, 3, 4])?;
    print!(rt; "\nP8:")?;
    cover(rt, &BOTH_WAYS, 3, &[0, 1])?;
    print!(rt; "\nP9:")?;
    cover(rt, &RING, 3, &[0, 1, 2])
}

fn main(rt: HostRuntime) -> io::Result<()> {
    covers(&rt)?;
    overlay(&rt, &RING, &ONLY_TWO)?;
    print!(rt; "\nP10:")?;
    distance(&rt, &RING, &ONLY_TWO, 1, 0)?;
    print!(rt; "\nP11:")?;
    distance(&rt, &WEDGE, &ONLY_TWO, 0, 1)?;
    distance(&rt, &WEDGE, &ONLY_TWO, 1, 0)?;
    print!(rt; "\nP12:")?;
    drive(&rt, &RING, &ONLY_TWO, &[2, 1])?;
    println!(rt)
}
