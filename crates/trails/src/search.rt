// Whether the path under trial can be completed by dropped nodes: at its inward end over the graph
// turned round, and then at its outward end. Each call of itself has one node fewer missing. A path
// that is full goes no further: with k of at most 32 that is never met.
// Searchable stands as a clause: it binds two graphs to one cover, so a struct of a graph and the
// cover would hold it for one of them alone.
ghost use Rattle.std.specs.Prelude.{◌+◌, ◌≤◌, ◌<◌, length};
ghost use Rattle.road.specs.workings.Verdicts.{Tells};
ghost use Rattle.trails.specs.workings.Search.{FreeNode, Inward, Longest, Outward, Searchable, Within};
ghost use Rattle.trails.specs.Trails.{on_trail};

use crate::Trail;
use road::{Graph, NodeCount};

// Whether v is dropped and not on the path yet.
fn is_free(cover: &[u8], t: Trail, v: u32) -> bool
    requires v_in_bounds { v < length cover.now }
    requires count_bound { t.count.0 ≤ 32 }
    ensures { Tells result (FreeNode cover.now (on_trail t) v) }
{
    if cover[v as usize] != 0 {
        return false;
    }
    if t.has(v) {
        return false;
    }
    true
}

// At the outward end alone. `longest` would tell this too, by whether it reaches all that are
// missing; tried here, it took a cover some two in a hundred more instructions.
fn outward(graph: &Graph, cover: &[u8], t: Trail, last: usize, missing: NodeCount) -> bool
    requires searchable { Searchable graph.now.starts.now graph.now.heads.now (length cover.now) }
    requires last_in_bounds { last < length cover.now }
    requires missing_bound { t.count.0 + missing.0 ≤ 32 }
    ensures { Tells result (Outward graph.now.starts.now graph.now.heads.now cover.now (on_trail t) last missing.0) }
{
    if missing.0 == 0 {
        return true;
    }
    let row = graph.row(last);
    let fewer = NodeCount(missing.0 - 1);
    for p in row.first..row.end {
        let v = graph.heads[p];
        if is_free(cover, t, v) {
            let Some(longer) = t.push(v) else {
                return false;
            };
            if outward(graph, cover, longer, v as usize, fewer) {
                return true;
            }
        }
    }
    false
}

// How many nodes can come onto the path at its outward end, up to `most`.
pub fn longest(graph: &Graph, cover: &[u8], t: Trail, last: usize, most: NodeCount) -> NodeCount
    requires searchable { Searchable graph.now.starts.now graph.now.heads.now (length cover.now) }
    requires last_in_bounds { last < length cover.now }
    requires most_bound { t.count.0 + most.0 ≤ 32 }
    ensures { Longest graph.now.starts.now graph.now.heads.now cover.now (on_trail t) last most.0 result.0 }
{
    if most.0 == 0 {
        return NodeCount(0);
    }
    let row = graph.row(last);
    let fewer = NodeCount(most.0 - 1);
    let mut best = 0;
    for p in row.first..row.end {
        let v = graph.heads[p];
        if is_free(cover, t, v) {
            let Some(longer) = t.push(v) else {
                return NodeCount(best);
            };
            let found = longest(graph, cover, longer, v as usize, fewer);
            best = best.max(found.0 + 1);
            if most.0 <= best {
                return NodeCount(best);
            }
        }
    }
    NodeCount(best)
}

// At the inward end, over the graph turned round, and where that leads no further at the outward
// end. There no more than `reach` nodes can come onto the path, so that end need not be tried
// where more are missing.
// Eight parameters: half of them change from call to call, so a struct of the others, each read in
// one line, would be no plainer.
pub fn inward(
    graph: &Graph,
    back: &Graph,
    cover: &[u8],
    t: Trail,
    first: usize,
    last: usize,
    missing: NodeCount,
    reach: NodeCount,
) -> bool
    requires searchable { Searchable graph.now.starts.now graph.now.heads.now (length cover.now) }
    requires back_searchable { Searchable back.now.starts.now back.now.heads.now (length cover.now) }
    requires first_in_bounds { first < length cover.now }
    requires last_in_bounds { last < length cover.now }
    requires missing_bound { t.count.0 + missing.0 ≤ 32 }
    requires within { Within graph.now.starts.now graph.now.heads.now cover.now (on_trail t) last missing.0 reach.0 }
    ensures { Tells result (Inward graph.now.starts.now graph.now.heads.now back.now.starts.now back.now.heads.now cover.now last (on_trail t) first missing.0) }
{
    if missing.0 == 0 {
        return true;
    }
    let row = back.row(first);
    let fewer = NodeCount(missing.0 - 1);
    for p in row.first..row.end {
        let v = back.heads[p];
        if is_free(cover, t, v) {
            let Some(longer) = t.push(v) else {
                return false;
            };
            if inward(graph, back, cover, longer, v as usize, last, fewer, reach) {
                return true;
            }
        }
    }
    if reach.0 < missing.0 {
        return false;
    }
    outward(graph, cover, t, last, missing)
}
