// The edges that document 01 names: each passes, and one step further is refused.
use overlay::{Work, overlay};
use printing::tell;
use road::{ArcCount, Graph, GraphMut, NodeCount, Refusal, check_graph, check_k, road_limits};
use std::fmt::Display;
use std::io;

// A line that says what is answered, after what it is.
fn say<T: Display + Drop>(
    rt: &impl Print,
    label: &str,
    what: &str,
    answer: Result<T, Refusal>,
) -> io::Result<()> {
    print!(rt; "{label}:")?;
    tell(rt, what, answer)?;
    println!(rt)
}

// A line that says what a check finds.
pub fn check(rt: &impl Print, label: &str, found: Result<(), Refusal>) -> io::Result<()> {
    say(rt, label, "", found.map(|()| "passed"))
}

// Two nodes, and an arc of this weight.
fn weight(rt: &impl Print, label: &str, w: u32) -> io::Result<()> {
    let graph = Graph {
        starts: &[0, 1, 1],
        heads: &[1],
        weights: &[w],
    };
    check(rt, label, check_graph(&graph, road_limits()))
}

// Nodes without arcs.
fn starts(rt: &impl Print, label: &str, starts: &[u32]) -> io::Result<()> {
    let graph = Graph {
        starts,
        heads: &[],
        weights: &[],
    };
    check(rt, label, check_graph(&graph, road_limits()))
}

pub fn checks(rt: &impl Print) -> io::Result<()> {
    check(rt, "k 32", check_k(NodeCount(32)))?;
    check(rt, "k 33", check_k(NodeCount(33)))?;
    weight(rt, "weight 1000000", 1000000)?;
    weight(rt, "weight 1000001", 1000001)?;
    starts(rt, "4097 starts", &[0; 4097])?;
    starts(rt, "4098 starts", &[0; 4098])
}

// The overlay of document 01's Line with the set {1, 3}, which has 2 arcs, in these rooms.
fn line(heads: &mut [u32], weights: &mut [u32]) -> Result<ArcCount, Refusal> {
    let graph = Graph {
        starts: &[0, 1, 3, 5, 7, 8],
        heads: &[1, 0, 2, 1, 3, 2, 4, 3],
        weights: &[5, 5, 7, 7, 9, 9, 11, 11],
    };
    let mut rooms = GraphMut {
        starts: &mut [0; 6],
        heads,
        weights,
    };
    let mut work = Work {
        labels: &mut [0; 5],
        heap: &mut [0; 10],
        places: &mut [0; 5],
        touched: &mut [0; 5],
    };
    overlay(&graph, &[0, 1, 0, 1, 0], &mut rooms, &mut work)
}

fn room(rt: &impl Print, label: &str, said: Result<ArcCount, Refusal>) -> io::Result<()> {
    say(rt, label, "arcs ", said.map(|arcs| arcs.0))
}

pub fn rooms(rt: &impl Print) -> io::Result<()> {
    room(
        rt,
        "overlay of 2 arcs, room for 2",
        line(&mut [0; 2], &mut [0; 2]),
    )?;
    room(
        rt,
        "overlay of 2 arcs, room for 1",
        line(&mut [0; 1], &mut [0; 1]),
    )
}
