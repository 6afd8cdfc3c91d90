// Numbers of inner functions.
use crate::rules::check;
use overlay::check_overlay;
use road::{Graph, Limits, NodeCount, Refusal, arcs_on_path};
use std::io;

fn most(rt: &impl Print, label: &str, limits: Limits) -> io::Result<()> {
    println!(rt; "{label}: arcs {} weight {}", limits.arcs.0, limits.weight)
}

pub fn limits(rt: &impl Print) -> io::Result<()> {
    most(rt, "road limits", road::road_limits())?;
    most(rt, "overlay limits", road::overlay_limits())
}

pub fn refusals(rt: &impl Print) -> io::Result<()> {
    print!(rt; "refusals:")?;
    for why in [
        Refusal::Sizes,
        Refusal::Starts,
        Refusal::Arcs,
        Refusal::K,
        Refusal::Order,
        Refusal::Set,
        Refusal::Overlay,
        Refusal::Node,
        Refusal::Outside,
        Refusal::Drive,
        Refusal::Lengths,
        Refusal::Room,
        Refusal::Line,
    ] {
        print!(rt; " {}", u8::from(why))?;
    }
    println!(rt)
}

fn nodes(rt: &impl Print, starts: &[u32]) -> io::Result<()> {
    let graph = Graph {
        starts,
        heads: &[],
        weights: &[],
    };
    print!(rt; " {}", graph.node_count().0)
}

pub fn counts(rt: &impl Print) -> io::Result<()> {
    print!(rt; "arcs on paths of 0, 1, 2 and 32 nodes:")?;
    for k in [0, 1, 2, 32] {
        print!(rt; " {}", arcs_on_path(NodeCount(k)).0)?;
    }
    print!(rt; "\nnodes of 0, 1, 2, 4097 and 4098 starts:")?;
    nodes(rt, &[])?;
    nodes(rt, &[0; 1])?;
    nodes(rt, &[0; 2])?;
    nodes(rt, &[0; 4097])?;
    nodes(rt, &[0; 4098])?;
    println!(rt)
}

// Check 7 by itself: an arc from 0 to 1, whose byte in the set is 2; and no set, so no node.
pub fn overlays(rt: &impl Print) -> io::Result<()> {
    let one_arc = Graph {
        starts: &[0, 1, 1],
        heads: &[1],
        weights: &[1],
    };
    let no_node = Graph {
        starts: &[0],
        heads: &[],
        weights: &[],
    };
    check(
        rt,
        "overlay, a byte of 2 in its set",
        check_overlay(&[1, 2], &one_arc),
    )?;
    check(rt, "overlay, no set", check_overlay(&[], &no_node))
}
