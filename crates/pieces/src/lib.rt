// The sizes of the pieces that the dropped nodes make.
#![tactic(auto)]

mod sizes;

ghost use Rattle.std.specs.Prelude.{◌≡◌, length};
ghost use Rattle.road.specs.workings.Left.{OfK};
ghost use Rattle.trails.specs.workings.Search.{Searchable};

use road::{Graph, NodeCount};
pub use sizes::spread;

// The graph whose nodes are pruned, the same turned round, and k. That the one is the other turned
// round stands in the contracts: a ghost field's fact has one proof alone, and this one has several,
// since an arc is told with its place.
#[derive(Clone, Copy)]
pub struct Roads<'a> {
    pub ahead: Graph<'a>,
    pub back: Graph<'a>,
    pub k: NodeCount,
    pub ghost of_k: { OfK k.0 },
}

// The graph, or the same turned round, and a byte and a size for each of its nodes.
#[derive(Clone, Copy)]
struct Side<'a> {
    graph: Graph<'a>,
    cover: &'a [u8],
    sizes: &'a [u32],
    ghost searchable: { Searchable graph.starts.now graph.heads.now (length cover.now) },
    ghost as_many: { length sizes.now ≡ length cover.now },
}
