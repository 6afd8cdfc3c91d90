// The lines of a map.
ghost use Rattle.std.specs.Prelude.{◌+◌, ◌-◌, ◌*◌, ◌≤◌, length};
ghost use Rattle.hexlines.specs.Outputs.{text_of};
ghost use Rattle.hexlines.specs.Writers.{Writes};
ghost use Rattle.maps.specs.Lists.{arc_lines, point_lines, row_lines};
ghost use Rattle.maps.specs.workings.Printing.{RowsFit};
ghost use Rattle.road.specs.Roads.{nodes_of};

use hexlines::Writer;
use road::{Graph, Span};

// A line for each node of the set, ascending.
pub fn write_points(out: &mut Writer, set: &[u8])
    requires { out.old.at + 7 * length set.now ≤ length out.old.buf.now }
    ensures { Writes out.old (text_of (point_lines 0 set.now)) out.new }
{
    for (v, b) in set.iter().enumerate() {
        if *b == 1 {
            out.point(v);
        }
    }
}

// A line for each arc of one tail, whose arcs stand in this row.
fn write_row(out: &mut Writer, tail: usize, row: Span, graph: &Graph)
    requires rises { row.first ≤ row.end }
    requires within { (row.end ≤ length graph.now.heads.now) × (row.end ≤ length graph.now.weights.now) }
    requires room { out.old.at + 19 * (row.end - row.first) ≤ length out.old.buf.now }
    ensures { Writes out.old (text_of (row_lines graph.now.heads.now graph.now.weights.now tail row.first (row.end - row.first))) out.new }
{
    for p in row.first..row.end {
        out.arc(tail, graph.heads[p], graph.weights[p]);
    }
}

// A line for each arc, in the layout's order.
pub fn write_arcs(out: &mut Writer, graph: &Graph)
    requires { RowsFit graph.now.starts.now graph.now.heads.now graph.now.weights.now (nodes_of graph.now.starts.now) out.old.at (length out.old.buf.now) }
    ensures { Writes out.old (text_of (arc_lines graph.now.starts.now graph.now.heads.now graph.now.weights.now (nodes_of graph.now.starts.now))) out.new }
{
    for u in 0..graph.node_count().0 {
        write_row(out, u, graph.row(u), graph);
    }
}
