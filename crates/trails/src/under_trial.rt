// The path under trial goes in by value and comes back.
ghost use Rattle.std.specs.Prelude.{◌≡◌, [], ◌∷◌, ◌≤◌};
ghost use Rattle.paths.specs.Lists.{Mem};
ghost use Rattle.road.specs.workings.Verdicts.{Tells};
ghost use Rattle.trails.specs.Trails.{on_trail, Pushes};

use crate::Trail;
use road::NodeCount;

impl Trail {
    // The path of one node.
    pub fn of(v: u32) -> Self
        ensures { (on_trail result ≡ v ∷ []) × (result.count.0 ≡ 1) }
    {
        let mut nodes = [0u32; 32];
        nodes[0] = v;
        Trail {
            nodes,
            count: NodeCount(1),
        }
    }

    // The path with one node more, or none where it is full.
    pub fn push(self, v: u32) -> Option<Trail>
        ensures { Pushes self v result }
    {
        let at = self.count.0;
        if 32 <= at {
            return None;
        }
        let mut nodes = self.nodes;
        nodes[at] = v;
        Some(Trail {
            nodes,
            count: NodeCount(at + 1),
        })
    }

    // Whether a node is on it. The node that one came from is met most often, so it is looked for
    // from the back.
    pub fn has(self, v: u32) -> bool
        requires { self.count.0 ≤ 32 }
        ensures { Tells result (Mem v (on_trail self)) }
    {
        let nodes = self.nodes;
        nodes[..self.count.0].iter().rev().any(|node| *node == v)
    }
}
