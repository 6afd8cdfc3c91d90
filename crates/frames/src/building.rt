// The moment of building.
ghost use Rattle.std.specs.Prelude.{◌∷◌, ◌++◌, ◌+◌, ◌*◌, ◌≤◌, length, IfOk};
ghost use Rattle.hexlines.specs.Outputs.{counts, text_of};
ghost use Rattle.hexlines.specs.Writers.{Writes};
ghost use Rattle.maps.specs.Lists.{arc_lines, point_lines};
ghost use Rattle.maps.specs.workings.Printing.{RowsFit};
ghost use Rattle.road.specs.Lent.{SameSlices};
ghost use Rattle.road.specs.Roads.{nodes_of};
ghost use Rattle.frames.specs.workings.Held.{BuildFits, Built, Laid, LayFits, map_lists};

use crate::{MOST_STARTS, OVER_ROOM};
use hexlines::Writer;
use maps::{find_cover, find_overlay, write_arcs, write_points};
use readings::MOST_NODES;
use road::{ArcCount, Graph, GraphMut, NodeCount, Refusal};

// Prints the map.
fn print_map(points: NodeCount, set: &[u8], overlay: &Graph, out: &mut Writer)
    requires set_in_bounds { out.old.at + 11 + 7 * length set.now ≤ length out.old.buf.now }
    requires rows_fit { RowsFit overlay.now.starts.now overlay.now.heads.now overlay.now.weights.now (nodes_of overlay.now.starts.now) (out.old.at + 11 + 7 * length set.now) (length out.old.buf.now) }
    ensures { Writes out.old (text_of (counts points.0 (length overlay.now.heads.now) ∷ point_lines 0 set.now ++ arc_lines overlay.now.starts.now overlay.now.heads.now overlay.now.weights.now (nodes_of overlay.now.starts.now))) out.new }
{
    out.counts(points.0, overlay.heads.len());
    write_points(out, set);
    write_arcs(out, overlay);
}

// Builds the overlay of the cover and prints the map.
fn lay(
    points: NodeCount,
    graph: &Graph,
    set: &[u8],
    rooms: &mut GraphMut,
    out: &mut Writer,
) -> Result<ArcCount, Refusal>
    requires { LayFits graph.now.starts.now graph.now.heads.now set.now rooms.old.starts.now rooms.old.heads.now rooms.old.weights.now out.old }
    ensures laid { Laid points.0 (map_lists graph.now set.now rooms.new.starts.now rooms.new.heads.now rooms.new.weights.now) result out.old out.new }
    ensures few { IfOk result (λ over. over.0 ≤ 4096) }
    ensures same_slices { SameSlices rooms.old rooms.new }
{
    let arcs = find_overlay(graph, set, rooms)?;
    let room = rooms.lent();
    let overlay = Graph {
        starts: room.starts,
        heads: &room.heads[..arcs.0],
        weights: &room.weights[..arcs.0],
    };
    print_map(points, set, &overlay, out);
    Ok(arcs)
}

// The same, the room being three slices. A function of its own: tried within `build`, and the proof
// didn't close, since what a part of an array holds at the end is not known where the part goes
// straight into the struct.
fn lay_in(
    points: NodeCount,
    graph: &Graph,
    set: &[u8],
    over_starts: &mut [u32],
    over_heads: &mut [u32],
    over_weights: &mut [u32],
    out: &mut Writer,
) -> Result<ArcCount, Refusal>
    requires { LayFits graph.now.starts.now graph.now.heads.now set.now over_starts.old over_heads.old over_weights.old out.old }
    ensures laid { Laid points.0 (map_lists graph.now set.now over_starts.new over_heads.new over_weights.new) result out.old out.new }
    ensures few { IfOk result (λ over. over.0 ≤ 4096) }
{
    let mut rooms = GraphMut {
        starts: over_starts,
        heads: over_heads,
        weights: over_weights,
    };
    lay(points, graph, set, &mut rooms, out)
}

// Prunes in ascending node order, builds the overlay and prints the map. The areas come one by one,
// for the graph is lent from others of them.
pub fn build(
    graph: &Graph,
    k: NodeCount,
    set: &mut [u8; MOST_NODES],
    over_starts: &mut [u32; MOST_STARTS],
    over_heads: &mut [u32; OVER_ROOM],
    over_weights: &mut [u32; OVER_ROOM],
    out: &mut Writer,
) -> Result<ArcCount, Refusal>
    requires { BuildFits graph.now.starts.now graph.now.heads.now out.old }
    ensures built { Built k.0 (map_lists graph.now set.new over_starts.new over_heads.new over_weights.new) result out.old out.new }
    ensures few { IfOk result (λ over. over.0 ≤ 4096) }
{
    let end = graph.starts.len();
    let n = end - 1;
    let points = find_cover(graph, k, &mut set[..n])?;
    lay_in(
        points,
        graph,
        &set[..n],
        &mut over_starts[..end],
        over_heads,
        over_weights,
        out,
    )
}
