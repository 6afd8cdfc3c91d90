// The two questions, everything being checked. Work is cleared before, since it may hold anything,
// and left zero.
ghost use Rattle.std.specs.Prelude.{◌≡◌, ◌<◌, length, replicate};
ghost use Rattle.paths.specs.Least.{Told};
ghost use Rattle.road.specs.Lent.{SameSlices, road_of};
ghost use Rattle.road.specs.Roads.{nodes_of};
ghost use Rattle.distance.specs.Calls.{hand_cleared, pair_cleared};
ghost use Rattle.distance.specs.Lent.{SameHand, hand_areas_of};
ghost use Rattle.distance.specs.Questions.{AnyPair, Handheld};
ghost use Rattle.distance.specs.workings.Labels.{RowsAsked, RowsFound, label_of};
ghost use Rattle.distance.specs.workings.Ready.{HandReady, PairReady, parts_held};
ghost use Rattle.distance.specs.workings.Through.{Leaves, SearchableIn};
ghost use Rattle.search.specs.workings.Rows.{Row};

use crate::sums::{lesser, shown};
use crate::through::through_overlay;
use crate::{HandWork, Ways};
use road::{Graph, GraphMut};
use search::{Queue, search};
use turning::turn;

impl HandWork<'_> {
    // Fills the queue, and what goes with it, with zeros.
    fn clear_queue(&mut self)
        ensures heap { self.new.heap.now ≡ replicate (length self.old.heap.now) 0 }
        ensures places { self.new.places.now ≡ replicate (length self.old.places.now) 0 }
        ensures touched { self.new.touched.now ≡ replicate (length self.old.touched.now) 0 }
        ensures blocked { self.new.blocked.now ≡ replicate (length self.old.blocked.now) 0 }
        ensures labels { self.new.labels.now ≡ self.old.labels.now }
        ensures same_slices { SameHand self.old self.new }
    {
        self.heap.fill(0);
        self.places.fill(0);
        self.touched.fill(0);
        self.blocked.fill(0);
    }

    // Labels the nodes of the overlay by what they are from one of them.
    pub(crate) fn search(&mut self, overlay: &Graph, from: usize)
        requires searchable { SearchableIn overlay.now self.old }
        requires from_bound { from < nodes_of overlay.now.starts.now }
        ensures row { Row (road_of overlay.now) self.old.blocked.now from self.new.labels.now }
        ensures leaves { Leaves overlay.now self.old self.new }
    {
        let blocked = &mut *self.blocked;
        let mut queue = Queue {
            heap: &mut *self.heap,
            places: &mut *self.places,
            waiting: 0,
        };
        search(overlay, blocked, from, self.labels, &mut queue);
    }
}

// The distance in the overlay from s to t.
pub fn ask_overlay(overlay: &Graph, s: usize, t: usize, work: &mut HandWork) -> Option<u64>
    requires { HandReady overlay.now.starts.now overlay.now.heads.now overlay.now.weights.now s t (hand_areas_of work.old) }
    ensures told { Told (Handheld (road_of overlay.now) s t) (label_of result) }
    ensures cleared { hand_areas_of work.new ≡ hand_cleared (nodes_of overlay.now.starts.now) }
    ensures same_slices { SameHand work.old work.new }
{
    work.clear_queue();
    work.search(overlay, s);
    let found = shown(work.labels[t]);
    work.labels.fill(0);
    found
}

// The row from s and the row into t, over paths with no node of the set strictly inside.
// Its work comes in the parts that `ask_pair` is lent.
fn find_rows(
    graph: &Graph,
    set: &[u8],
    s: usize,
    t: usize,
    back: &mut GraphMut,
    outward: &mut [u64],
    inward: &mut [u64],
    hand: &mut HandWork,
)
    requires { RowsAsked graph.now.starts.now graph.now.heads.now graph.now.weights.now set.now s t back.old.starts.now back.old.heads.now back.old.weights.now outward.old inward.old hand.old.heap.now hand.old.places.now }
    ensures rows_found { RowsFound (road_of graph.now) set.now s t outward.new inward.new }
    ensures asked { RowsAsked graph.now.starts.now graph.now.heads.now graph.now.weights.now set.now s t back.new.starts.now back.new.heads.now back.new.weights.now outward.new inward.new hand.new.heap.now hand.new.places.now }
    ensures hand { hand_areas_of hand.new ≡ hand_areas_of hand.old }
    ensures same_back { SameSlices back.old back.new }
    ensures same_hand { SameHand hand.old hand.new }
{
    turn(graph, back);
    let mut queue = Queue {
        heap: &mut *hand.heap,
        places: &mut *hand.places,
        waiting: 0,
    };
    search(graph, set, s, outward, &mut queue);
    search(&back.lent(), set, t, inward, &mut queue);
}

// The least of the direct way and of the ways through the overlay.
// Its work comes in parts: tried as one struct, the proof didn't close, since the two rows are read
// while the rest of it is written.
pub fn ask_pair(
    graph: &Graph,
    set: &[u8],
    overlay: &Graph,
    s: usize,
    t: usize,
    back: &mut GraphMut,
    outward: &mut [u64],
    inward: &mut [u64],
    hand: &mut HandWork,
) -> Option<u64>
    requires { PairReady graph.now.starts.now graph.now.heads.now graph.now.weights.now set.now overlay.now.starts.now overlay.now.heads.now overlay.now.weights.now s t (parts_held back.old outward.old inward.old hand.old) }
    ensures told { Told (AnyPair (road_of graph.now) (road_of overlay.now) set.now s t) (label_of result) }
    ensures cleared { parts_held back.new outward.new inward.new hand.new ≡ pair_cleared (nodes_of graph.now.starts.now) (length graph.now.heads.now) }
    ensures same_back { SameSlices back.old back.new }
    ensures same_hand { SameHand hand.old hand.new }
{
    hand.clear_queue();
    find_rows(graph, set, s, t, back, outward, inward, hand);
    let direct = shown(outward[t]);
    let ways = Ways {
        set,
        outward: &*outward,
        inward: &*inward,
        s,
        t,
    };
    let through = through_overlay(overlay, &ways, hand);
    back.clear();
    outward.fill(0);
    inward.fill(0);
    hand.labels.fill(0);
    lesser(direct, through)
}
