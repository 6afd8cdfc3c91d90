// The overlay call.
ghost use Rattle.std.specs.Prelude.{◌≡◌, ◌⊎◌, ◌<◌, length, replicate};
ghost use Rattle.road.specs.Lent.{SameSlices};
ghost use Rattle.road.specs.workings.Verdicts.{Tells};
ghost use Rattle.overlay.specs.Calls.{areas_of, Outcome, said_of, SameWork};
ghost use Rattle.overlay.specs.workings.Ready.{Ready};

use crate::Work;
use crate::counting::count_arcs;
use crate::writing::write_arcs;
use road::{ArcCount, Graph, GraphMut, Refusal, check_lengths, check_road_and_set};
use search::Queue;

impl Work<'_> {
    // Fills the work with zeros.
    fn clear(&mut self)
        ensures labels { self.new.labels.now ≡ replicate (length self.old.labels.now) 0 }
        ensures heap { self.new.heap.now ≡ replicate (length self.old.heap.now) 0 }
        ensures places { self.new.places.now ≡ replicate (length self.old.places.now) 0 }
        ensures touched { self.new.touched.now ≡ replicate (length self.old.touched.now) 0 }
        ensures same { SameWork self.old self.new }
    {
        self.labels.fill(0);
        self.heap.fill(0);
        self.places.fill(0);
        self.touched.fill(0);
    }
}

// Whether so many arcs lack room: more than are lent, or than 65,536.
fn lack_room(count: ArcCount, room: usize) -> bool
    ensures { Tells result ((room < count.0) ⊎ (65536 < count.0)) }
{
    room < count.0 || 65536 < count.0
}

// Builds the overlay, everything but its room being checked: the arcs are counted before any is
// written, so that a lack of room is found while the rooms are as they were.
fn build(
    graph: &Graph,
    set: &[u8],
    rooms: &mut GraphMut,
    work: &mut Work,
) -> Result<ArcCount, Refusal>
    requires { Ready graph.now.starts.now graph.now.heads.now graph.now.weights.now set.now (areas_of rooms.old work.old) }
    ensures outcome { Outcome graph.now.starts.now graph.now.heads.now graph.now.weights.now set.now (areas_of rooms.old work.old) (said_of result) (areas_of rooms.new work.new) }
    ensures same_rooms { SameSlices rooms.old rooms.new }
    ensures same_work { SameWork work.old work.new }
{
    work.clear();
    let mut queue = Queue {
        heap: &mut *work.heap,
        places: &mut *work.places,
        waiting: 0,
    };
    let count = count_arcs(graph, set, work.labels, &mut queue);
    let answer = if lack_room(count, rooms.heads.len()) {
        Err(Refusal::Room)
    } else {
        Ok(write_arcs(graph, set, rooms, work.labels, &mut queue))
    };
    work.labels.fill(0);
    answer
}

// Builds the overlay of the set: its starts, and its arcs in the two rooms. The answer is the
// count of its arcs.
pub fn overlay(
    graph: &Graph,
    set: &[u8],
    rooms: &mut GraphMut,
    work: &mut Work,
) -> Result<ArcCount, Refusal>
    ensures outcome { Outcome graph.now.starts.now graph.now.heads.now graph.now.weights.now set.now (areas_of rooms.old work.old) (said_of result) (areas_of rooms.new work.new) }
    ensures same_rooms { SameSlices rooms.old rooms.new }
    ensures same_work { SameWork work.old work.new }
{
    check_road_and_set(graph, set)?;
    let n = graph.node_count().0;
    check_lengths(&[
        (rooms.starts.len(), n + 1),
        (rooms.heads.len(), rooms.weights.len()),
        (work.labels.len(), n),
        (work.heap.len(), 2 * n),
        (work.places.len(), n),
        (work.touched.len(), n),
    ])?;
    build(graph, set, rooms, work)
}
