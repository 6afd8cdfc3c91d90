// How many arcs the overlay has. Nothing is written but the search's work. SearchingOf stands as a
// clause, as in writing: a struct of the labels and the queue would have to say as well that its
// slices stay the same.
ghost use Rattle.std.specs.Prelude.{◌≡◌, ◌+◌, ◌<◌};
ghost use Rattle.road.specs.Lent.{road_of};
ghost use Rattle.road.specs.Roads.{nodes_of};
ghost use Rattle.overlay.specs.Overlays.{Arcs, ArcsInAll};
ghost use Rattle.overlay.specs.workings.Lending.{QueueStays, SearchingOf};

use crate::Row;
use road::{ArcCount, Graph};
use search::{Queue, search};

// Adds the arcs of one tail.
fn count_tail(
    graph: &Graph,
    set: &[u8],
    labels: &mut [u64],
    queue: &mut Queue,
    tail: usize,
    count: ArcCount,
) -> ArcCount
    requires searching { SearchingOf graph.now set.now labels.old queue.old }
    requires tail_bound { tail < nodes_of graph.now.starts.now }
    requires arcs { Arcs (road_of graph.now) set.now tail count.0 }
    ensures arcs_2 { Arcs (road_of graph.now) set.now (tail + 1) result.0 }
    ensures queue { QueueStays queue.old queue.new }
{
    if set[tail] == 0 {
        return count;
    }
    search(graph, set, tail, labels, queue);
    let row = Row { set, labels, tail };
    ArcCount(count.0 + row.count().0)
}

// Adds up the arcs of all tails.
pub fn count_arcs(graph: &Graph, set: &[u8], labels: &mut [u64], queue: &mut Queue) -> ArcCount
    requires { SearchingOf graph.now set.now labels.old queue.old }
    ensures arcs_in_all { ArcsInAll (road_of graph.now) set.now result.0 }
    ensures queue { QueueStays queue.old queue.new }
{
    let mut count = ArcCount(0);
    for tail in 0..set.len() {
        count = count_tail(graph, set, labels, queue, tail, count);
    }
    count
}
