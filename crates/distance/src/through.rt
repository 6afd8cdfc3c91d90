// The ways through the overlay: in at one node of the set, and out at another.
ghost use Rattle.std.specs.Prelude.{◌≡◌, ◌<◌, length, Some};
ghost use Rattle.road.specs.Lent.{road_of};
ghost use Rattle.paths.specs.Least.{Told};
ghost use Rattle.road.specs.Roads.{nodes_of};
ghost use Rattle.distance.specs.workings.Labels.{Entries, Exits, Gate, Modest, Says, Small, Sum, Through, label_of};
ghost use Rattle.distance.specs.workings.Through.{Leaves, RowsOf, SearchableIn};
ghost use Rattle.search.specs.workings.Rows.{label_at};

use crate::sums::{gate, lesser, shown, sum};
use crate::{HandWork, Ways};
use road::Graph;

// RowsOf and SearchableIn stand as clauses: they bind the rows and the work to the overlay's nodes,
// which neither struct has.

// From s over an entry at the distance `first`, through the overlay, whose row of that entry is
// given, and out at b.
fn through_exit(ways: &Ways, labels: &[u64], first: u64, b: usize) -> Option<u64>
    requires rows { RowsOf ways.now (length labels.now) }
    requires b_in_bounds { b < length labels.now }
    requires small { Small labels.now }
    requires modest { Modest (label_of (Some first)) }
    ensures { Told (Sum (Says (label_of (Some first))) (Says (label_at labels.now b)) (Gate ways.now.set.now ways.now.inward.now ways.now.t b)) (label_of result) }
{
    let middle = shown(labels[b]);
    let last = gate(ways.set, ways.inward, ways.t, b);
    sum(Some(first), middle, last)
}

// The least over all exits.
fn through_exits(ways: &Ways, labels: &[u64], first: u64) -> Option<u64>
    requires rows { RowsOf ways.now (length labels.now) }
    requires small { Small labels.now }
    requires modest { Modest (label_of (Some first)) }
    ensures { Told (Exits ways.now.set.now labels.now ways.now.inward.now ways.now.t (label_of (Some first)) (length ways.now.set.now)) (label_of result) }
{
    let mut best = None;
    for b in 0..ways.set.len() {
        best = lesser(best, through_exit(ways, labels, first, b));
    }
    best
}

// The least over one entry and all exits. A node that is no entry costs no search.
fn through_entry(overlay: &Graph, ways: &Ways, hand: &mut HandWork, a: usize) -> Option<u64>
    requires searchable { SearchableIn overlay.now hand.old }
    requires rows { RowsOf ways.now (nodes_of overlay.now.starts.now) }
    requires a_bound { a < nodes_of overlay.now.starts.now }
    ensures told { Told (Through (road_of overlay.now) ways.now.set.now ways.now.outward.now ways.now.inward.now ways.now.s ways.now.t a) (label_of result) }
    ensures leaves { Leaves overlay.now hand.old hand.new }
{
    let first = gate(ways.set, ways.outward, ways.s, a)?;
    hand.search(overlay, a);
    through_exits(ways, hand.labels, first)
}

// The least over all entries and all exits.
pub fn through_overlay(overlay: &Graph, ways: &Ways, hand: &mut HandWork) -> Option<u64>
    requires searchable { SearchableIn overlay.now hand.old }
    requires rows { RowsOf ways.now (nodes_of overlay.now.starts.now) }
    ensures told { Told (Entries (road_of overlay.now) ways.now.set.now ways.now.outward.now ways.now.inward.now ways.now.s ways.now.t (length ways.now.set.now)) (label_of result) }
    ensures leaves { Leaves overlay.now hand.old hand.new }
{
    let mut best = None;
    for a in 0..ways.set.len() {
        best = lesser(best, through_entry(overlay, ways, hand, a));
    }
    best
}
