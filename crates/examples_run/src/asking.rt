// One question to each call.
use cover::Work;
use distance::PairWork;
use printing::tell;
use road::{ArcCount, Graph, GraphMut, NodeCount, Refusal};
use std::io;

// The cover of a graph of at most 7 nodes and 8 arcs: a byte for each node, 1 in the cover, and
// how many are.
pub fn cover(rt: &impl Print, graph: &Graph, k: usize, order: &[u32]) -> io::Result<()> {
    let n = graph.node_count().0.min(8);
    let s = graph.starts.len().min(8);
    let m = graph.heads.len().min(8);
    let mut chosen = [7; 8];
    let mut work = Work {
        back: &mut GraphMut {
            starts: &mut [7; 8][0..s],
            heads: &mut [7; 8][0..m],
            weights: &mut [7; 8][0..m],
        },
        marks: &mut [7; 8][0..n],
        pieces: &mut [7; 8][0..n],
        sizes: &mut [7; 8][0..n],
    };
    let said = cover::cover(graph, NodeCount(k), order, &mut chosen[0..n], &mut work);
    match said {
        Ok(count) => {
            print!(rt; " cover")?;
            for byte in &chosen[0..n] {
                print!(rt; " {byte}")?;
            }
            print!(rt; " count {}", count.0)
        }
        Err(why) => print!(rt; " {why}"),
    }
}

// The overlay of a set in a graph of 3 nodes, in rooms for no arc.
fn build(graph: &Graph, set: &[u8], rooms: &mut GraphMut) -> Result<ArcCount, Refusal> {
    let mut work = overlay::Work {
        labels: &mut [7; 3],
        heap: &mut [7; 6],
        places: &mut [7; 3],
        touched: &mut [7; 3],
    };
    overlay::overlay(graph, set, rooms, &mut work)
}

pub fn overlay(rt: &impl Print, graph: &Graph, set: &[u8]) -> io::Result<()> {
    let mut rooms = GraphMut {
        starts: &mut [7; 4],
        heads: &mut [],
        weights: &mut [],
    };
    let said = build(graph, set, &mut rooms);
    tell(rt, "overlay arcs ", said.map(|count| count.0))
}

// The any-pair question in a graph of 3 nodes, over the overlay of the set, for which rooms for no
// arc are enough.
fn ask_pair(graph: &Graph, set: &[u8], s: u32, t: u32) -> Result<Option<u64>, Refusal> {
    let mut rooms = GraphMut {
        starts: &mut [7; 4],
        heads: &mut [],
        weights: &mut [],
    };
    build(graph, set, &mut rooms)?;
    let mut work = PairWork {
        starts: &mut [7; 4],
        heads: &mut [7; 3],
        weights: &mut [7; 3],
        outward: &mut [7; 3],
        inward: &mut [7; 3],
        labels: &mut [7; 3],
        heap: &mut [7; 6],
        places: &mut [7; 3],
        touched: &mut [7; 3],
        blocked: &mut [7; 3],
    };
    distance::any_pair(graph, set, &rooms.lent(), s, t, &mut work)
}

pub fn distance(rt: &impl Print, graph: &Graph, set: &[u8], s: u32, t: u32) -> io::Result<()> {
    match ask_pair(graph, set, s, t) {
        Ok(Some(weight)) => print!(rt; " way {weight}"),
        Ok(None) => print!(rt; " no way"),
        Err(why) => print!(rt; " {why}"),
    }
}

// A drive in a graph of 3 nodes.
pub fn drive(rt: &impl Print, graph: &Graph, set: &[u8], nodes: &[u32]) -> io::Result<()> {
    let end = nodes.len().min(8);
    let said = drive::thin(graph, set, nodes, &mut [7; 8][0..end]);
    tell(rt, "positions kept ", said.map(|count| count.0))
}
