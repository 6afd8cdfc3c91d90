// A graph as it is lent: to be read, or to be written.
ghost use Rattle.std.specs.Prelude.{◌≡◌, ◌+◌, ◌<◌, length, replicate};
ghost use Rattle.road.specs.Drives.{Joined};
ghost use Rattle.road.specs.Lent.{SameSlices};
ghost use Rattle.road.specs.Roads.{nodes_of};
ghost use Rattle.road.specs.workings.Scans.{RowOf};
ghost use Rattle.road.specs.workings.Sound.{Sorted};
ghost use Rattle.road.specs.workings.Verdicts.{Tells};

use crate::{Graph, GraphMut, NodeCount, Span};

impl Graph<'_> {
    // The number of its nodes.
    pub fn node_count(&self) -> NodeCount
        ensures { result.0 ≡ nodes_of self.now.starts.now }
    {
        NodeCount(self.starts.len().saturating_sub(1))
    }

    // Where the arcs with this tail stand.
    pub fn row(&self, tail: usize) -> Span
        requires { tail + 1 < length self.now.starts.now }
        ensures { RowOf self.now.starts.now tail result }
    {
        Span {
            first: self.starts[tail] as usize,
            end: self.starts[tail + 1] as usize,
        }
    }

    // Whether an arc leads from u to v. The heads of one tail ascend, so its row is halved until v is
    // met or nothing is left.
    pub fn joined(&self, u: usize, v: u32) -> bool
        requires sorted { Sorted self.now.starts.now self.now.heads.now }
        requires u_bound { u < nodes_of self.now.starts.now }
        ensures { Tells result (Joined self.now.starts.now self.now.heads.now u v) }
    {
        // By hand: with the library's binary search a drive takes half as long again to thin.
        let heads = self.heads;
        let row = self.row(u);
        let mut low = row.first;
        let mut high = row.end;
        while low < high {
            let middle = low + (high - low) / 2;
            if heads[middle] == v {
                return true;
            }
            if heads[middle] < v {
                low = middle + 1;
            } else {
                high = middle;
            }
        }
        false
    }
}

impl GraphMut<'_> {
    // What it holds now, to be read.
    pub fn lent(&self) -> Graph<'_>
        ensures starts { result.starts.now ≡ self.now.starts.now }
        ensures heads { result.heads.now ≡ self.now.heads.now }
        ensures weights { result.weights.now ≡ self.now.weights.now }
    {
        Graph {
            starts: &*self.starts,
            heads: &*self.heads,
            weights: &*self.weights,
        }
    }

    // Fills it with zeros.
    pub fn clear(&mut self)
        ensures starts { self.new.starts.now ≡ replicate (length self.old.starts.now) 0 }
        ensures heads { self.new.heads.now ≡ replicate (length self.old.heads.now) 0 }
        ensures weights { self.new.weights.now ≡ replicate (length self.old.weights.now) 0 }
        ensures same_slices { SameSlices self.old self.new }
    {
        self.starts.fill(0);
        self.heads.fill(0);
        self.weights.fill(0);
    }
}
