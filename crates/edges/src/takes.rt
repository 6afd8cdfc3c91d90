// How many nodes the search takes, beside how many it labels: the heap gives them in Dijkstra's
// order, so each labelled node is taken once. The search's contract does not say so.
ghost use Rattle.std.specs.Prelude.{replicate};
ghost use Rattle.search.specs.workings.Rows.{Asks};

use crate::graphs::{Case, Maze};
use road::{check_graph, overlay_limits};
use search::{Ask, Queue};
use std::io;

// Searches, and counts the nodes taken, up to a hundred thousand.
fn takes(ask: &Ask, labels: &mut [u64], queue: &mut Queue) -> usize
    requires { Asks ask.now.graph.starts.now ask.now.graph.heads.now ask.now.graph.weights.now ask.now.blocked.now ask.now.source labels.old queue.old.heap.now queue.old.places.now }
{
    ask.begin(labels, queue);
    for taken in 0..100000 {
        if queue.waiting == 0 {
            return taken;
        }
        ask.take_one(labels, queue);
    }
    100000
}

// Searches, and tells how many nodes were taken and how many labelled.
fn count(rt: &impl Print, label: &str, ask: &Ask) -> io::Result<()>
    requires { Asks ask.now.graph.starts.now ask.now.graph.heads.now ask.now.graph.weights.now ask.now.blocked.now ask.now.source (replicate 4096 0) (replicate 4096 0) (replicate 4096 0) }
{
    let mut labels = [0; 4096];
    let mut queue = Queue {
        heap: &mut [0; 4096],
        places: &mut [0; 4096],
        waiting: 0,
    };
    let taken = takes(ask, &mut labels, &mut queue);
    let labelled = labels.iter().filter(|reached| **reached != 0).count();
    println!(rt; "{label}: taken {taken} labelled {labelled}")
}

// Searches the graph of a case from node 0, where it passes the checks.
fn line(rt: &impl Print, maze: &mut Maze, label: &str, case: Case) -> io::Result<()> {
    maze.fill(case);
    let graph = maze.graph();
    if let Err(why) = check_graph(&graph, overlay_limits()) {
        return println!(rt; "{label}: {why}");
    }
    let ask = Ask {
        graph,
        blocked: &maze.blocked,
        source: 0,
    };
    count(rt, label, &ask)
}

pub fn lines(rt: &impl Print) -> io::Result<()> {
    // One for all lines, each of which writes its own graph into it.
    let mut maze = Maze {
        starts: [0; 4097],
        heads: [0; 16384],
        weights: [0; 16384],
        arcs: 0,
        blocked: [0; 4096],
    };
    for (label, case) in [
        ("line of 4096", Case::Line),
        ("line of 4096, node 10 blocked", Case::LineCut),
        ("two lines, of 100 and of 3996", Case::Halves),
        ("grid of 64 by 64", Case::Grid),
        ("grid, column 31 blocked", Case::GridColumn),
        ("grid, the source blocked", Case::GridSource),
        ("diamonds", Case::Diamonds),
        ("fan", Case::Fan),
    ] {
        line(rt, &mut maze, label, case)?;
    }
    Ok(())
}
