// The lines after the arcs: questions and drives, and what is printed for them.
ghost use Rattle.std.specs.Prelude.{◌≡◌, ◌+◌, ◌≤◌, length};
ghost use Rattle.maps.specs.workings.Calls.{GraphFits};
ghost use Rattle.frames.specs.Held.{MapFits, MapRoom};
ghost use Rattle.frames.specs.Stages.{map_in};
ghost use Rattle.frames.specs.Steps.{asking};
ghost use Rattle.frames.specs.workings.Held.{Answered, Leaves, Limited, Thinned, lists_of};
ghost use Rattle.frames.specs.workings.Judging.{Judged};

use crate::{Areas, Lent, Sizes};
use drive::thin;
use hexlines::Writer;
use maps::find_distance;
use readings::{Line, MOST_DRIVE};
use road::Refusal;

// Asks the any-pair question.
fn answer_question(map: &Lent, from: u32, to: u32, out: &mut Writer) -> Result<(), Refusal>
    requires graph_fits { GraphFits map.now.graph.starts.now map.now.graph.heads.now }
    requires room { out.old.at + 29 ≤ length out.old.buf.now }
    ensures { Answered (lists_of map.now) from to result out.old out.new }
{
    match find_distance(&map.graph, map.set, &map.overlay, from, to)? {
        Some(d) => out.way(from, to, d),
        None => out.no_way(from, to),
    }
    Ok(())
}

// Thins a drive of at most 64 nodes.
fn answer_drive(map: &Lent, nodes: &[u32], out: &mut Writer) -> Result<(), Refusal>
    requires few { length nodes.now ≤ 64 }
    requires room { out.old.at + 133 ≤ length out.old.buf.now }
    ensures { Thinned (lists_of map.now) nodes.now result out.old out.new }
{
    // Fixed memory, as the nodes have.
    let mut room = [0u32; MOST_DRIVE];
    let positions = &mut room[..nodes.len()];
    let count = thin(&map.graph, map.set, nodes, positions)?;
    out.kept(&positions[..count.0]);
    Ok(())
}

// A line after the arcs.
pub fn ask(
    sizes: Sizes,
    line: Line,
    nodes: &[u32],
    areas: &Areas,
    out: &mut Writer,
) -> Result<(), Refusal>
    requires fits { MapFits sizes }
    requires limited { Limited line }
    requires nodes_len { length nodes.now ≡ 64 }
    requires room { MapRoom out.old }
    ensures { Leaves (Judged (asking (map_in sizes areas.now)) (Some line) nodes.now) (λ u. asking (map_in sizes areas.now)) result out.old out.new }
{
    let map = areas.map(sizes);
    match line {
        Line::Question { from, to } => answer_question(&map, from, to, out),
        Line::Drive(count) => answer_drive(&map, &nodes[..count], out),
        Line::Head { .. } | Line::Arc { .. } => Err(Refusal::Line),
    }
}
