// Pruning: the nodes are taken in the order lent, and each is dropped exactly if it is not needed.
// Where the sizes of its neighbours' pieces tell that it is not, nothing is searched.
// The bytes, the pieces and the sizes go as three slices: were they in one struct, each contract
// would also have to say that its slices are the same.
ghost use Rattle.std.specs.Prelude.{◌≡◌, ◌≤◌, ◌<◌, length, set};
ghost use Rattle.paths.specs.Lists.{Each};
ghost use Rattle.road.specs.workings.Verdicts.{Tells};
ghost use Rattle.cover.specs.workings.Few.{Few};
ghost use Rattle.cover.specs.workings.Ready.{paths_of};
ghost use Rattle.pieces.specs.workings.Pieces.{Fits, Kept};
ghost use Rattle.rule.specs.Rule.{Needed, Prunes};
ghost use Rattle.rule.specs.workings.Taking.{Took};
ghost use Rattle.pieces.specs.workings.Steps.{PrunableOver, road_of};

use pieces::{Roads, spread};
use road::NodeCount;
use trails::{Trail, inward, longest};

// Whether v cannot be dropped.
fn is_needed(roads: &Roads, cover: &[u8], v: u32) -> bool
    requires prunable { PrunableOver roads.now cover.now }
    requires v_in_bounds { v < length cover.now }
    ensures { Tells result (Needed (paths_of roads.now) cover.now v) }
{
    let at = v as usize;
    let trail = Trail::of(v);
    let most = NodeCount(roads.k.0 - 1);
    let reach = longest(&roads.ahead, cover, trail, at, most);
    if reach.0 == most.0 {
        return true;
    }
    inward(&roads.ahead, &roads.back, cover, trail, at, at, most, reach)
}

// Whether the dropped nodes and one more are fewer than k. Counting ends once they are not.
fn too_few(cover: &[u8], k: NodeCount) -> bool
    ensures { Few result cover.now k.0 }
{
    let mut nodes = 1;
    for byte in cover {
        if k.0 <= nodes {
            return false;
        }
        if *byte == 0 {
            nodes += 1;
        }
    }
    nodes < k.0
}

// Whether v cannot be dropped, where its size would be r. A size below k tells it without a search,
// and so do too few dropped nodes.
fn stays(roads: &Roads, cover: &[u8], sizes: &[u32], v: u32, r: NodeCount) -> bool
    requires prunable { PrunableOver roads.now cover.now }
    requires fits { Fits (road_of roads.now) roads.now.k.0 cover.now sizes.now v r.0 }
    requires v_in_bounds { v < length cover.now }
    ensures { Tells result (Needed (paths_of roads.now) cover.now v) }
{
    if r.0 < roads.k.0 {
        return false;
    }
    if too_few(cover, roads.k) {
        return false;
    }
    is_needed(roads, cover, v)
}

// Drops v, whose size is then r, and makes the sizes even again.
fn drop_node(
    roads: &Roads,
    cover: &mut [u8],
    pieces: &mut [u32],
    sizes: &mut [u32],
    v: u32,
    r: NodeCount,
)
    requires prunable { PrunableOver roads.now cover.old }
    requires kept { Kept (road_of roads.now) roads.now.k.0 cover.old sizes.old pieces.old }
    requires fits { Fits (road_of roads.now) roads.now.k.0 cover.old sizes.old v r.0 }
    requires v_in_bounds { v < length cover.old }
    ensures cover_value { cover.new ≡ set cover.old v 0 }
    ensures still_kept { Kept (road_of roads.now) roads.now.k.0 cover.new sizes.new pieces.new }
{
    let size = r.0 as u32;
    cover[v as usize] = 0;
    sizes[v as usize] = size;
    pieces[0] = v;
    spread(&roads.ahead, &roads.back, cover, pieces, sizes, size);
}

// Takes one node.
fn take_node(roads: &Roads, cover: &mut [u8], pieces: &mut [u32], sizes: &mut [u32], v: u32)
    requires prunable { PrunableOver roads.now cover.old }
    requires kept { Kept (road_of roads.now) roads.now.k.0 cover.old sizes.old pieces.old }
    requires v_in_bounds { v < length cover.old }
    ensures took { Took (paths_of roads.now) v cover.old cover.new }
    ensures still_kept { Kept (road_of roads.now) roads.now.k.0 cover.new sizes.new pieces.new }
{
    let r = roads.size_for(cover, pieces, sizes, v);
    if stays(roads, cover, sizes, v, r) {
        return;
    }
    drop_node(roads, cover, pieces, sizes, v, r);
}

// Takes the nodes one by one.
pub fn prune(roads: &Roads, order: &[u32], cover: &mut [u8], pieces: &mut [u32], sizes: &mut [u32])
    requires prunable { PrunableOver roads.now cover.old }
    requires kept { Kept (road_of roads.now) roads.now.k.0 cover.old sizes.old pieces.old }
    requires each { Each (λ v. v < length cover.old) order.now }
    ensures { Prunes (paths_of roads.now) order.now cover.old cover.new }
{
    for v in order {
        take_node(roads, cover, pieces, sizes, *v);
    }
}
