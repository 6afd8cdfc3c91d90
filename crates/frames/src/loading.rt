// The head and the arcs as they are read, and the graph once it is complete. MapRoom stands as a
// clause: it is a fact of the writer, which knows no map.
ghost use Rattle.std.specs.Prelude.{◌≡◌, List, ℕ, ◌+◌, ◌≤◌, length, take, IfOk, ⊤};
ghost use Rattle.maps.specs.Lists.{starts_of};
ghost use Rattle.frames.specs.Held.{LoadFits, MapRoom};
ghost use Rattle.frames.specs.workings.Held.{Kept, Leaves, Limited, builds_in, loads_in};
ghost use Rattle.frames.specs.workings.Judging.{Falls, Judged};
ghost use Rattle.frames.specs.Stages.{loading_in, stage_by};
ghost use Rattle.frames.specs.Steps.{begun};

use crate::building::build;
use crate::{Areas, Load, MOST_STARTS, Phase, Sizes};
use hexlines::Writer;
use maps::write_starts;
use readings::Line;
use road::{ArcCount, Graph, NodeCount, Refusal};

// Writes the n + 1 starts of arcs with these tails. A function of its own: tried within `complete`, and
// the proof didn't close, since what a struct's array holds once a part of it was lent is not known.
fn write_front(tails: &[u32], n: NodeCount, starts: &mut [u32; MOST_STARTS])
    requires limits { (length tails.now ≤ 2048) × (n.0 ≤ 512) }
    ensures { take (n.0 + 1) starts.new ≡ starts_of n.0 tails.now }
{
    write_starts(tails, &mut starts[..n.0 + 1]);
}

// The graph is complete: the map is built.
fn complete(load: Load, areas: &mut Areas, out: &mut Writer) -> Result<Phase, Refusal>
    requires limits { (load.n.0 ≤ 512) × (load.m.0 ≤ 2048) }
    requires room { MapRoom out.old }
    ensures leaves { Leaves (builds_in load areas.old) (λ p. stage_by p areas.new) result out.old out.new }
    ensures kept { IfOk result (Kept (λ ℓ. ⊤)) }
{
    let Load { n, m, k, .. } = load;
    write_front(&areas.tails[..m.0], n, &mut areas.starts);
    let graph = Graph {
        starts: &areas.starts[..n.0 + 1],
        heads: &areas.heads[..m.0],
        weights: &areas.weights[..m.0],
    };
    let over = build(
        &graph,
        k,
        &mut areas.set,
        &mut areas.over_starts,
        &mut areas.over_heads,
        &mut areas.over_weights,
        out,
    )?;
    Ok(Phase::Asking(Sizes { n, m, over }))
}

// Arcs are read: more are to come, or the graph is complete.
fn go_on(load: Load, areas: &mut Areas, out: &mut Writer) -> Result<Phase, Refusal>
    requires limits { (load.n.0 ≤ 512) × (load.m.0 ≤ 2048) × (load.count.0 ≤ load.m.0) }
    requires room { MapRoom out.old }
    ensures leaves { Leaves (loads_in load areas.old) (λ p. stage_by p areas.new) result out.old out.new }
    ensures kept { IfOk result (Kept (λ ℓ. ℓ ≡ load.count.0 + 1)) }
{
    if load.count.0 < load.m.0 {
        return Ok(Phase::Loading(load));
    }
    complete(load, areas, out)
}

// A line before the head: it must be the head.
pub fn take_head(line: Line, areas: &mut Areas, out: &mut Writer) -> Result<Phase, Refusal>
    requires limited { Limited line }
    requires room { MapRoom out.old }
    ensures leaves { (nodes : List ℕ) → Leaves (Judged begun (Some line) nodes) (λ p. stage_by p areas.new) result out.old out.new }
    ensures kept { IfOk result (Kept (λ ℓ. ℓ ≡ 1)) }
{
    let Line::Head { n, m, k } = line else {
        return Err(Refusal::Line);
    };
    let count = ArcCount(0);
    go_on(Load { n, m, k, count }, areas, out)
}

// Whether the tail is at or above n, or below the last of the tails before it.
fn falls(n: NodeCount, tails: &[u32], tail: u32) -> bool
    ensures { Falls result n.0 tail tails.now }
{
    n.0 <= tail as usize || tails.last().is_some_and(|last| tail < *last)
}

// A line where an arc is due.
pub fn take_arc(
    load: Load,
    line: Line,
    areas: &mut Areas,
    out: &mut Writer,
) -> Result<Phase, Refusal>
    requires fits { LoadFits load }
    requires room { MapRoom out.old }
    ensures leaves { (nodes : List ℕ) → Leaves (Judged (loading_in load areas.old) (Some line) nodes) (λ p. stage_by p areas.new) result out.old out.new }
    ensures kept { IfOk result (Kept (λ ℓ. ℓ ≡ load.count.0 + 2)) }
{
    let Line::Arc { tail, head, weight } = line else {
        return Err(Refusal::Line);
    };
    let count = load.count.0;
    if falls(load.n, &areas.tails[..count], tail) {
        return Err(Refusal::Line);
    }
    areas.tails[count] = tail;
    areas.heads[count] = head;
    areas.weights[count] = weight;
    let longer = Load {
        count: ArcCount(count + 1),
        ..load
    };
    go_on(longer, areas, out)
}
