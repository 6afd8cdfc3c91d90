// The map that stands in the areas.
ghost use Rattle.std.specs.Prelude.{◌≡◌};
ghost use Rattle.frames.specs.Held.{MapFits};
ghost use Rattle.frames.specs.Stages.{map_in};
ghost use Rattle.frames.specs.workings.Held.{lists_of};

use crate::{Areas, Lent, Sizes};
use road::Graph;

impl Areas {
    // The map of these sizes.
    pub(crate) fn map(&self, sizes: Sizes) -> Lent<'_>
        requires { MapFits sizes }
        ensures { lists_of result ≡ map_in sizes self.now }
    {
        let n = sizes.n.0;
        let m = sizes.m.0;
        let over = sizes.over.0;
        Lent {
            graph: Graph {
                starts: &self.starts[..n + 1],
                heads: &self.heads[..m],
                weights: &self.weights[..m],
            },
            set: &self.set[..n],
            overlay: Graph {
                starts: &self.over_starts[..n + 1],
                heads: &self.over_heads[..over],
                weights: &self.over_weights[..over],
            },
        }
    }
}
