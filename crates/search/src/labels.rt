// The search. A node whose label falls waits again; when nothing waits the labels are least.
ghost use Rattle.std.specs.Prelude.{◌≡◌, ◌+◌, ◌≤◌, ◌<◌, length, get_or};
ghost use Rattle.road.specs.Lent.{road_of};
ghost use Rattle.road.specs.Roads.{nodes_of};
ghost use Rattle.search.specs.Lent.{SameSlices};
ghost use Rattle.search.specs.workings.Lent.{GoingOf, HeapBy, HeapOf};
ghost use Rattle.search.specs.workings.Rows.{Asks, Row};
ghost use Rattle.search.specs.workings.States.{All, Leaves, Offered, Upto, mass};

use crate::heap::sooner;
use crate::{Ask, Queue};
use road::Graph;

// Offers the label x to v, which is taken where v has none or a larger one; then v waits.
fn offer(labels: &mut [u64], queue: &mut Queue, v: usize, x: u64)
    requires heap { HeapBy labels.old queue.old }
    requires v_in_bounds { v < length queue.old.places.now }
    ensures still_heap { HeapOf queue.new }
    ensures offered { Offered v x labels.old queue.old.places.now queue.old.waiting labels.new queue.new.places.now queue.new.waiting }
    ensures slices { SameSlices queue.old queue.new }
{
    if sooner(x, labels[v]) {
        labels[v] = x;
        let at = queue.places[v] as usize;
        if at == 0 {
            queue.add(labels, v);
            return;
        }
        queue.up(labels, at - 1);
    }
}

// GoingOf stands as a clause: a struct of the labels and the queue would have to say as well that its
// three slices stay the same.
impl Ask<'_> {
    // Offers u's neighbours the labels that its arcs give.
    fn relax(&self, u: usize, labels: &mut [u64], queue: &mut Queue)
        requires going { GoingOf self.now.graph self.now.blocked.now self.now.source labels.old queue.old (Upto u (get_or self.now.graph.starts.now u 0)) }
        requires leaves { Leaves self.now.blocked.now self.now.source labels.old queue.old.places.now u }
        requires u_bound { u < nodes_of self.now.graph.starts.now }
        ensures still_going { GoingOf self.now.graph self.now.blocked.now self.now.source labels.new queue.new All }
        ensures mass_grows_not { mass labels.new + queue.new.waiting ≤ mass labels.old + queue.old.waiting }
        ensures slices { SameSlices queue.old queue.new }
    {
        let heads = self.graph.heads;
        let weights = self.graph.weights;
        let base = labels[u];
        let row = self.graph.row(u);
        for p in row.first..row.end {
            let x = base + u64::from(weights[p]);
            offer(labels, queue, heads[p] as usize, x);
        }
    }

    // Takes a node that waits, and where it may be left offers its neighbours labels. Inlined, so that
    // the queue of who counts the takes stays in registers.
    #[inline(always)]
    pub fn take_one(&self, labels: &mut [u64], queue: &mut Queue)
        requires going { GoingOf self.now.graph self.now.blocked.now self.now.source labels.old queue.old All }
        requires one_waits { 1 ≤ queue.old.waiting }
        ensures still_going { GoingOf self.now.graph self.now.blocked.now self.now.source labels.new queue.new All }
        ensures mass_falls { mass labels.new + queue.new.waiting < mass labels.old + queue.old.waiting }
        ensures slices { SameSlices queue.old queue.new }
    {
        let u = queue.take(labels);
        let free = self.blocked[u] == 0;
        if u == self.source || free {
            self.relax(u, labels, queue);
        }
    }

    // Takes nodes until none waits.
    fn run(&self, labels: &mut [u64], queue: &mut Queue)
        requires going { GoingOf self.now.graph self.now.blocked.now self.now.source labels.old queue.old All }
        ensures still_going { GoingOf self.now.graph self.now.blocked.now self.now.source labels.new queue.new All }
        ensures none { queue.new.waiting ≡ 0 }
        ensures slices { SameSlices queue.old queue.new }
    {
        // A while: a node may wait again, so no range counts the takes.
        while 0 < queue.waiting {
            self.take_one(labels, queue);
        }
    }

    // The search before its first take: the source alone has a label, and waits.
    pub fn begin(&self, labels: &mut [u64], queue: &mut Queue)
        requires { Asks self.now.graph.starts.now self.now.graph.heads.now self.now.graph.weights.now self.now.blocked.now self.now.source labels.old queue.old.heap.now queue.old.places.now }
        ensures going { GoingOf self.now.graph self.now.blocked.now self.now.source labels.new queue.new All }
        ensures waiting { queue.new.waiting ≡ 1 }
        ensures slices { SameSlices queue.old queue.new }
    {
        labels.fill(0);
        labels[self.source] = 1;
        queue.waiting = 0;
        queue.add(labels, self.source);
    }
}

// For every node the least weight over paths from the source with no blocked node strictly inside,
// as a label: 0 where there is none, else the weight + 1. The queue's two slices are zeros before
// and after. Labels as numbers, `blocked` as bytes: C lends the room for them as it is.
pub fn search(graph: &Graph, blocked: &[u8], source: usize, labels: &mut [u64], queue: &mut Queue)
    requires { Asks graph.now.starts.now graph.now.heads.now graph.now.weights.now blocked.now source labels.old queue.old.heap.now queue.old.places.now }
    ensures row { Row (road_of graph.now) blocked.now source labels.new }
    ensures waiting { queue.new.waiting ≡ queue.old.waiting }
    ensures unchanged { (queue.new.heap.now ≡ queue.old.heap.now) × (queue.new.places.now ≡ queue.old.places.now) }
    ensures slices { SameSlices queue.old queue.new }
{
    // A queue of its own over the same slices: it stays in registers, the caller's would not.
    let mut own = Queue {
        heap: &mut *queue.heap,
        places: &mut *queue.places,
        waiting: 0,
    };
    let ask = Ask {
        graph: *graph,
        blocked,
        source,
    };
    ask.begin(labels, &mut own);
    ask.run(labels, &mut own);
}
