// The cover call.
ghost use Rattle.std.specs.Prelude.{◌≡◌, ◌≤◌};
ghost use Rattle.road.specs.Counting.{times};
ghost use Rattle.road.specs.Faults.{lengths_fault};
ghost use Rattle.road.specs.workings.Verdicts.{Judged};
ghost use Rattle.cover.specs.workings.Ready.{Built, Cleared, Ready};
ghost use Rattle.cover.specs.Calls.{areas_of, Outcome, SameWork, asked_lengths, said_of};

use crate::Work;
use crate::pruning::prune;
use pieces::Roads;
use road::{ArcCount, Graph, NodeCount, Refusal, check_cover_input, check_lengths};
use turning::turn;

// How many of the bytes are 1.
fn count_ones(s: &[u8]) -> NodeCount
    ensures { result.0 ≡ times 1 s.now }
{
    NodeCount(s.iter().filter(|byte| **byte == 1).count())
}

// Check 11: the result and the work, of a graph with n nodes and m arcs.
fn check_areas(n: NodeCount, m: ArcCount, cover: &[u8], work: &Work) -> Result<(), Refusal>
    requires { n.0 ≤ 4096 }
    ensures { Judged (lengths_fault (asked_lengths n.0 m.0 (areas_of cover.now work.now))) result }
{
    check_lengths(&[
        (cover.len(), n.0),
        (work.back.starts.len(), n.0 + 1),
        (work.back.heads.len(), m.0),
        (work.back.weights.len(), m.0),
        (work.marks.len(), n.0),
        (work.pieces.len(), n.0),
        (work.sizes.len(), n.0),
    ])
}

impl Work<'_, '_> {
    // Fills the work with zeros.
    fn clear(&mut self)
        ensures cleared { Cleared self.old self.new }
        ensures same_work { SameWork self.old self.new }
    {
        self.back.clear();
        self.marks.fill(0);
        self.pieces.fill(0);
        self.sizes.fill(0);
    }
}

// Builds the cover, everything being checked.
fn build(graph: &Graph, k: NodeCount, order: &[u32], cover: &mut [u8], work: &mut Work) -> NodeCount
    requires { Ready graph.now.starts.now graph.now.heads.now graph.now.weights.now k.0 order.now (areas_of cover.old work.old) }
    ensures built { Built graph.now.starts.now graph.now.heads.now graph.now.weights.now k.0 order.now (areas_of cover.new work.new) result.0 }
    ensures same_work { SameWork work.old work.new }
{
    cover.fill(1);
    // A size left over would be sound but useless: it would hide rejections.
    work.sizes.fill(0);
    turn(graph, work.back);
    let roads = Roads {
        ahead: *graph,
        back: work.back.lent(),
        k,
    };
    prune(&roads, order, cover, work.pieces, work.sizes);
    work.clear();
    count_ones(cover)
}

// Picks the points: the cover of the paths of k nodes that pruning in the order lent yields, a byte
// for each node, and how many they are.
pub fn cover(
    graph: &Graph,
    k: NodeCount,
    order: &[u32],
    cover: &mut [u8],
    work: &mut Work,
) -> Result<NodeCount, Refusal>
    ensures outcome { Outcome graph.now.starts.now graph.now.heads.now graph.now.weights.now k.0 order.now (areas_of cover.old work.old) (said_of result) (areas_of cover.new work.new) }
    ensures same_work { SameWork work.old work.new }
{
    check_cover_input(graph, k, order)?;
    let arcs = ArcCount(graph.heads.len());
    check_areas(graph.node_count(), arcs, cover, work)?;
    Ok(build(graph, k, order, cover, work))
}
