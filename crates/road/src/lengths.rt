// Checks 1 and 11: lengths.
ghost use Rattle.road.specs.Faults.{sizes, set_size, length_fault, lengths_fault};
ghost use Rattle.road.specs.workings.Verdicts.{Judged};

use crate::{Graph, Limits, Refusal};

// Check 1, of a graph's three slices.
pub fn check_sizes(graph: &Graph, limits: Limits) -> Result<(), Refusal>
    ensures { Judged (sizes limits graph.now.starts.now graph.now.heads.now graph.now.weights.now) result }
{
    let starts = graph.starts.len();
    let heads = graph.heads.len();
    if starts < 2 || 4097 < starts || heads != graph.weights.len() || limits.arcs.0 < heads {
        return Err(Refusal::Sizes);
    }
    Ok(())
}

// Check 1, of a set that is lent without a road graph.
pub fn check_set_size(set: &[u8]) -> Result<(), Refusal>
    ensures { Judged (set_size set.now) result }
{
    if set.len() == 0 || 4096 < set.len() {
        return Err(Refusal::Sizes);
    }
    Ok(())
}

// Check 11, of one slice: the length that it has, and the length that is asked. One needs no list.
pub fn check_length(given: usize, asked: usize) -> Result<(), Refusal>
    ensures { Judged (length_fault given asked) result }
{
    if given != asked {
        return Err(Refusal::Lengths);
    }
    Ok(())
}

// Check 11, of several slices.
pub fn check_lengths(lengths: &[(usize, usize)]) -> Result<(), Refusal>
    ensures { Judged (lengths_fault lengths.now) result }
{
    if lengths.iter().any(|(given, asked)| given != asked) {
        return Err(Refusal::Lengths);
    }
    Ok(())
}
