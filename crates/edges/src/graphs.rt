// Graphs of 4,096 nodes for the search.
ghost use Rattle.std.specs.Prelude.{◌≡◌, ◌≤◌, ◌<◌, length};

use road::Graph;

#[derive(Clone, Copy)]
pub enum Case {
    Line,
    LineCut,
    Halves,
    Grid,
    GridColumn,
    GridSource,
    Diamonds,
    Fan,
}

// A graph of a case, and a byte for each node, 1 where it is blocked. The memory is fixed, so how
// many of the arcs' places are in use stands beside them.
#[derive(Drop)]
pub struct Maze {
    pub starts: [u32; 4097],
    pub heads: [u32; 16384],
    pub weights: [u32; 16384],
    pub arcs: usize,
    pub blocked: [u8; 4096],
    ghost room: { arcs ≤ 16384 },
}

// The head and the weight of an arc, if it is there. Heads are counted round the nodes.
fn arc_if(there: bool, head: u32, weight: u32) -> Option<(u32, u32)> {
    there.then_some((head % 4096, weight))
}

// A number below 1,000 that follows from x and looks like none.
fn noise(x: u32) -> u32 {
    x % 65536 * 40503 % 65536 * 25173 % 65536 % 1000
}

// A grid of 64 by 64, each node joined to its neighbours: above, left, right, below.
fn grid(v: u32, j: u32) -> Option<(u32, u32)>
    requires v_bound { v < 4096 }
    requires j_bound { j < 4096 }
{
    let weight = noise(4 * v + j);
    match j {
        0 => arc_if(64 <= v, v + 4032, weight),
        1 => arc_if(0 < v % 64, v + 4095, weight),
        2 => arc_if(v % 64 < 63, v + 1, weight),
        _ => arc_if(v < 4032, v + 64, weight),
    }
}

// Each even node leads to the next even one, by an arc of weight 2^30, 2^29 and so on, and by way of
// the odd node between them at 0. A search that takes the node labelled last goes over all that
// follows once more at each even node: twice as often for each of them.
fn diamonds(v: u32, j: u32) -> Option<(u32, u32)> {
    if 62 <= v {
        return None;
    }
    if j == 0 {
        return Some((v + 1, 0));
    }
    arc_if(v % 2 == 0, v + 2, (1 << 30) >> (v / 2))
}

// From node 0 to each node v at 1,000 v, and from each other node to the next at 1. A search that
// takes the node that waits longest labels each node again for every node before it.
fn fan(v: u32, j: u32) -> Option<(u32, u32)>
    requires v_bound { v < 4096 }
    requires j_bound { j < 4096 }
{
    if v == 0 {
        return Some((j + 1, 1000 * (j + 1)));
    }
    arc_if(v < 4095, v + 1, 1)
}

// A case is told by three matches: many cases share an arm of one and differ in the next.
impl Case {
    // How many arcs v may have.
    fn slots(self, v: u32) -> u32
        ensures { result < 4096 }
    {
        match self {
            Case::Grid | Case::GridColumn | Case::GridSource => 4,
            Case::Diamonds => 2,
            Case::Fan => if v == 0 { 4095 } else { 1 },
            _ => 1,
        }
    }

    // The j-th arc that v may have, heads ascending.
    fn arc(self, v: u32, j: u32) -> Option<(u32, u32)>
        requires v_bound { v < 4096 }
        requires j_bound { j < 4096 }
    {
        match self {
            Case::Halves => arc_if(v < 4095 && v != 99, v + 1, 3),
            Case::Grid | Case::GridColumn | Case::GridSource => grid(v, j),
            Case::Diamonds => diamonds(v, j),
            Case::Fan => fan(v, j),
            _ => arc_if(v < 4095, v + 1, 3),
        }
    }

    // Whether v is blocked.
    fn blocks(self, v: u32) -> bool {
        match self {
            Case::LineCut => v == 10,
            Case::GridColumn => v % 64 == 31,
            Case::GridSource => v == 0,
            _ => false,
        }
    }
}

impl Maze {
    // Writes the graph of a case and its blocked nodes, over what stood there. In place: given back
    // by value a maze would be copied.
    pub fn fill(&mut self, case: Case) {
        self.starts[0] = 0;
        let mut arcs = 0;
        for v in 0..4096 {
            for j in 0..case.slots(v) {
                if arcs == 16384 {
                    break;
                }
                if let Some((head, weight)) = case.arc(v, j) {
                    self.heads[arcs] = head;
                    self.weights[arcs] = weight;
                    arcs += 1;
                }
            }
            self.starts[v as usize + 1] = arcs as u32;
            self.blocked[v as usize] = u8::from(case.blocks(v));
        }
        self.arcs = arcs;
    }

    // The graph without the room that it leaves.
    pub fn graph(&self) -> Graph<'_>
        ensures { length result.starts.now ≡ 4097 }
    {
        Graph {
            starts: &self.starts,
            heads: &self.heads[0..self.arcs],
            weights: &self.weights[0..self.arcs],
        }
    }
}
