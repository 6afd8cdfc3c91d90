// The calls, each with work of its own: what they say does not depend on it. The work is fixed arrays
// at the program's limits, for nothing is taken from the heap.
ghost use Rattle.road.specs.Lent.{SameSlices};
ghost use Rattle.cover.specs.Calls.{said_of as cover_said};
ghost use Rattle.overlay.specs.Calls.{said_of as overlay_said};
ghost use Rattle.distance.specs.Calls.{said_of as distance_said};
ghost use Rattle.maps.specs.workings.Calls.{CoverFits, CoverFound, OverlayFits, OverlayFound, PairFits, PairFound};

use crate::lists::count_up;
use cover::{Work as CoverWork, cover};
use distance::{PairWork, any_pair};
use overlay::{Work as OverlayWork, overlay};
use road::{ArcCount, Graph, GraphMut, NodeCount, Refusal};

// The limits of the program, as `readings` keeps them.
const MOST_NODES: usize = 512;

const MOST_STARTS: usize = MOST_NODES + 1;

const MOST_ARCS: usize = 2048;

// The room of a search's heap.
const HEAP_ROOM: usize = 2 * MOST_NODES;

// The cover, the nodes being taken in ascending order.
pub fn find_cover(graph: &Graph, k: NodeCount, set: &mut [u8]) -> Result<NodeCount, Refusal>
    requires { CoverFits graph.now.starts.now graph.now.heads.now set.old }
    ensures { CoverFound graph.now.starts.now graph.now.heads.now graph.now.weights.now k.0 set.old (cover_said result) set.new }
{
    let n = graph.node_count().0;
    let m = graph.heads.len();
    let mut order = [0u32; MOST_NODES];
    let mut starts = [0u32; MOST_STARTS];
    let mut heads = [0u32; MOST_ARCS];
    let mut weights = [0u32; MOST_ARCS];
    let mut marks = [0u8; MOST_NODES];
    let mut pieces = [0u32; MOST_NODES];
    let mut sizes = [0u32; MOST_NODES];
    count_up(&mut order);
    let mut back = GraphMut {
        starts: &mut starts[..n + 1],
        heads: &mut heads[..m],
        weights: &mut weights[..m],
    };
    let mut work = CoverWork {
        back: &mut back,
        marks: &mut marks[..n],
        pieces: &mut pieces[..n],
        sizes: &mut sizes[..n],
    };
    cover(graph, k, &order[..n], set, &mut work)
}

// The overlay of the set.
pub fn find_overlay(graph: &Graph, set: &[u8], rooms: &mut GraphMut) -> Result<ArcCount, Refusal>
    requires { OverlayFits graph.now.starts.now graph.now.heads.now rooms.old.starts.now rooms.old.heads.now rooms.old.weights.now }
    ensures found { OverlayFound graph.now.starts.now graph.now.heads.now graph.now.weights.now set.now rooms.old.starts.now rooms.old.heads.now rooms.old.weights.now (overlay_said result) rooms.new.starts.now rooms.new.heads.now rooms.new.weights.now }
    ensures same_slices { SameSlices rooms.old rooms.new }
{
    let n = graph.node_count().0;
    let mut labels = [0u64; MOST_NODES];
    let mut heap = [0u32; HEAP_ROOM];
    let mut places = [0u32; MOST_NODES];
    let mut touched = [0u32; MOST_NODES];
    let mut work = OverlayWork {
        labels: &mut labels[..n],
        heap: &mut heap[..2 * n],
        places: &mut places[..n],
        touched: &mut touched[..n],
    };
    overlay(graph, set, rooms, &mut work)
}

// The any-pair question.
pub fn find_distance(
    graph: &Graph,
    set: &[u8],
    overlay: &Graph,
    s: u32,
    t: u32,
) -> Result<Option<u64>, Refusal>
    requires { PairFits graph.now.starts.now graph.now.heads.now }
    ensures { PairFound graph.now.starts.now graph.now.heads.now graph.now.weights.now set.now overlay.now.starts.now overlay.now.heads.now overlay.now.weights.now s t (distance_said result) }
{
    let n = graph.node_count().0;
    let m = graph.heads.len();
    let mut starts = [0u32; MOST_STARTS];
    let mut heads = [0u32; MOST_ARCS];
    let mut weights = [0u32; MOST_ARCS];
    let mut outward = [0u64; MOST_NODES];
    let mut inward = [0u64; MOST_NODES];
    let mut labels = [0u64; MOST_NODES];
    let mut heap = [0u32; HEAP_ROOM];
    let mut places = [0u32; MOST_NODES];
    let mut touched = [0u32; MOST_NODES];
    let mut blocked = [0u8; MOST_NODES];
    let mut work = PairWork {
        starts: &mut starts[..n + 1],
        heads: &mut heads[..m],
        weights: &mut weights[..m],
        outward: &mut outward[..n],
        inward: &mut inward[..n],
        labels: &mut labels[..n],
        heap: &mut heap[..2 * n],
        places: &mut places[..n],
        touched: &mut touched[..n],
        blocked: &mut blocked[..n],
    };
    any_pair(graph, set, overlay, s, t, &mut work)
}
