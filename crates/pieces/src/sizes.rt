// The sizes of the pieces that the dropped nodes make: with its neighbours' sizes alone a node may be
// seen not to be needed. Nothing is searched here.
ghost use Rattle.std.specs.Prelude.{◌≡◌, ◌+◌, ◌≤◌, ◌<◌, length};
ghost use Rattle.road.specs.Counting.{under};
ghost use Rattle.road.specs.Lent.{road_of};
ghost use Rattle.pieces.specs.workings.Pieces.{Below, Fits, Kept, Raised, Raises, Row, Spread, Spreads};
ghost use Rattle.trails.specs.workings.Search.{Searchable};
ghost use Rattle.pieces.specs.workings.Steps.{Prunable, PrunableOver};

use crate::{Roads, Side};
use road::{Graph, NodeCount};

impl Side<'_> {
    // Of p and x the one whose size is larger, where x is dropped; otherwise p.
    fn above(&self, p: u32, x: u32) -> u32
        requires p_in_bounds { p < length self.now.cover.now }
        requires x_in_bounds { x < length self.now.cover.now }
        ensures { result < length self.now.cover.now }
    {
        if self.cover[x as usize] == 0 && self.sizes[p as usize] < self.sizes[x as usize] {
            return x;
        }
        p
    }

    // The node of v's row with the largest size, or p. Which node it is no proof asks: the bound
    // holds with any, and is smallest with this one.
    fn top(&self, v: usize, p: u32) -> u32
        requires v_in_bounds { v < length self.now.cover.now }
        requires p_in_bounds { p < length self.now.cover.now }
        ensures { result < length self.now.cover.now }
    {
        let row = self.graph.row(v);
        let mut best = p;
        for i in row.first..row.end {
            best = self.above(best, self.graph.heads[i]);
        }
        best
    }

    // The size of a dropped node other than `but`, and 0 of any other.
    fn size_of(&self, but: u32, x: u32) -> usize
        requires x_in_bounds { x < length self.now.cover.now }
        ensures { Below self.now.cover.now self.now.sizes.now but result x }
    {
        if self.cover[x as usize] != 0 || x == but {
            return 0;
        }
        self.sizes[x as usize] as usize
    }

    // The largest size of a dropped node in v's row, `but` left out.
    fn largest(&self, v: usize, but: u32) -> usize
        requires v_in_bounds { v < length self.now.cover.now }
        ensures { Row self.now.graph.starts.now self.now.graph.heads.now v (Below self.now.cover.now self.now.sizes.now but result) }
    {
        let row = self.graph.row(v);
        let mut best = 0;
        for i in row.first..row.end {
            best = best.max(self.size_of(but, self.graph.heads[i]));
        }
        best
    }
}

// Raises y's size to r where y is dropped and its size is smaller; then y waits. Those that wait
// stand at the front of `pieces`, which is lent and does not grow, so their count goes beside it.
fn raise(cover: &[u8], pieces: &mut [u32], sizes: &mut [u32], count: usize, r: u32, y: u32) -> usize
    requires sizes_len { length sizes.old ≡ length cover.now }
    requires room { count + under r sizes.old ≤ length pieces.old }
    requires y_in_bounds { y < length cover.now }
    ensures raises { Raises r sizes.old pieces.old count sizes.new pieces.new result }
    ensures raised { Raised cover.now sizes.new r y }
{
    if cover[y as usize] != 0 || r <= sizes[y as usize] {
        return count;
    }
    sizes[y as usize] = r;
    pieces[count] = y;
    count + 1
}

// Raises the nodes of x's row.
fn raise_row(
    graph: &Graph,
    cover: &[u8],
    pieces: &mut [u32],
    sizes: &mut [u32],
    waiting: usize,
    r: u32,
    x: usize,
) -> usize
    requires searchable { Searchable graph.now.starts.now graph.now.heads.now (length cover.now) }
    requires sizes_len { length sizes.old ≡ length cover.now }
    requires room { waiting + under r sizes.old ≤ length pieces.old }
    requires x_in_bounds { x < length cover.now }
    ensures raises { Raises r sizes.old pieces.old waiting sizes.new pieces.new result }
    ensures row { Row graph.now.starts.now graph.now.heads.now x (Raised cover.now sizes.new r) }
{
    let row = graph.row(x);
    let mut count = waiting;
    for i in row.first..row.end {
        count = raise(cover, pieces, sizes, count, r, graph.heads[i]);
    }
    count
}

impl Roads<'_> {
    // A size for v, if it is dropped: a path through v comes in by one neighbour and leaves by
    // another, so the two largest sizes and one more bound it. From k on a size says nothing.
    pub fn size_for(&self, cover: &[u8], pieces: &[u32], sizes: &[u32], v: u32) -> NodeCount
        requires prunable { PrunableOver self.now cover.now }
        requires kept { Kept (road_of self.now.ahead) self.now.k.0 cover.now sizes.now pieces.now }
        requires v_in_bounds { v < length cover.now }
        ensures { Fits (road_of self.now.ahead) self.now.k.0 cover.now sizes.now v result.0 }
    {
        let at = v as usize;
        let k = self.k;
        let ahead = Side {
            graph: self.ahead,
            cover,
            sizes,
        };
        let back = Side {
            graph: self.back,
            cover,
            sizes,
        };
        let best = ahead.top(at, v);
        let p = back.top(at, best);
        let out = ahead.largest(at, p);
        let into = back.largest(at, p);
        let second = out.max(into);
        let first = second.max(sizes[p as usize] as usize);
        if k.0 <= first {
            return k;
        }
        let size = first + second + 1;
        if k.0 <= size {
            return k;
        }
        NodeCount(size)
    }
}

// Spreads the size r from the node that waits, until no dropped node next to one of size r is of a
// smaller size. It takes the two graphs and not Roads, since it asks nothing of k.
pub fn spread(
    graph: &Graph,
    back: &Graph,
    cover: &[u8],
    pieces: &mut [u32],
    sizes: &mut [u32],
    r: u32,
)
    requires prunable { Prunable graph.now.starts.now graph.now.heads.now graph.now.weights.now back.now.starts.now back.now.heads.now back.now.weights.now cover.now }
    requires spreads { Spreads (road_of graph.now) cover.now r sizes.old pieces.old 0 1 }
    ensures { Spread (road_of graph.now) cover.now r sizes.old sizes.new }
{
    let mut i = 0;
    let mut count = 1;
    // A while: the list of those that wait grows as it is gone through, so no range counts it.
    while i < count {
        let x = pieces[i] as usize;
        count = raise_row(graph, cover, pieces, sizes, count, r, x);
        count = raise_row(back, cover, pieces, sizes, count, r, x);
        i += 1;
    }
}
