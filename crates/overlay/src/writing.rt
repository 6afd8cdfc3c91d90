// Writing the overlay, once its arcs are counted and have room.
ghost use Rattle.std.specs.Prelude.{◌≡◌, ◌+◌, ◌<◌, length};
ghost use Rattle.road.specs.Lent.{SameSlices, road_of};
ghost use Rattle.road.specs.Roads.{nodes_of};
ghost use Rattle.overlay.specs.Overlays.{Arcs};
ghost use Rattle.overlay.specs.workings.Lending.{QueueStays, SearchingOf};
ghost use Rattle.overlay.specs.workings.Writing.{Building, Enough, Light, RowWritten};

use crate::Row;
use road::{ArcCount, Graph, GraphMut};
use search::{Queue, search};

// Writes the row of one tail from where the former ended; gives where it ends.
fn write_tail(
    graph: &Graph,
    set: &[u8],
    rooms: &mut GraphMut,
    labels: &mut [u64],
    queue: &mut Queue,
    tail: usize,
    count: ArcCount,
) -> ArcCount
    requires searching { SearchingOf graph.now set.now labels.old queue.old }
    requires light { Light (road_of graph.now) set.now }
    requires enough { Enough (road_of graph.now) set.now (length rooms.old.heads.now) }
    requires weights_room { length rooms.old.weights.now ≡ length rooms.old.heads.now }
    requires tail_bound { tail < nodes_of graph.now.starts.now }
    requires arcs { Arcs (road_of graph.now) set.now tail count.0 }
    ensures row_written { RowWritten (road_of graph.now) set.now tail rooms.old.heads.now rooms.old.weights.now rooms.new.heads.now rooms.new.weights.now count.0 result.0 }
    ensures starts { rooms.new.starts.now ≡ rooms.old.starts.now }
    ensures same_rooms { SameSlices rooms.old rooms.new }
    ensures queue { QueueStays queue.old queue.new }
{
    if set[tail] == 0 {
        return count;
    }
    search(graph, set, tail, labels, queue);
    let from = count.0;
    let row = Row { set, labels, tail };
    let arcs = row.write(&mut rooms.heads[from..], &mut rooms.weights[from..]);
    ArcCount(from + arcs.0)
}

// Writes all rows in order.
pub fn write_arcs(
    graph: &Graph,
    set: &[u8],
    rooms: &mut GraphMut,
    labels: &mut [u64],
    queue: &mut Queue,
) -> ArcCount
    requires searching { SearchingOf graph.now set.now labels.old queue.old }
    requires light { Light (road_of graph.now) set.now }
    requires enough { Enough (road_of graph.now) set.now (length rooms.old.heads.now) }
    requires starts_room { length rooms.old.starts.now ≡ nodes_of graph.now.starts.now + 1 }
    requires weights_room { length rooms.old.weights.now ≡ length rooms.old.heads.now }
    ensures building { Building (road_of graph.now) set.now (nodes_of graph.now.starts.now) rooms.old.heads.now rooms.old.weights.now rooms.new.starts.now rooms.new.heads.now rooms.new.weights.now result.0 }
    ensures same_rooms { SameSlices rooms.old rooms.new }
    ensures queue { QueueStays queue.old queue.new }
{
    rooms.starts[0] = 0;
    let mut count = ArcCount(0);
    for tail in 0..set.len() {
        count = write_tail(graph, set, rooms, labels, queue, tail, count);
        rooms.starts[tail + 1] = count.0 as u32;
    }
    count
}
