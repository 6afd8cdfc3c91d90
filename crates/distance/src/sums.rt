// Distances shown, compared and summed. No way is None, apart from every number.
ghost use Rattle.std.specs.Prelude.{◌≡◌, ◌<◌, length};
ghost use Rattle.paths.specs.Least.{Told};
ghost use Rattle.distance.specs.workings.Labels.{Gate, Lesser, Modest, Summed, label_of};

// A label of the search as a distance.
pub fn shown(label: u64) -> Option<u64>
    ensures { label_of result ≡ label }
{
    label.checked_sub(1)
}

// The lesser of two distances.
pub fn lesser(x: Option<u64>, y: Option<u64>) -> Option<u64>
    ensures { Lesser (label_of x) (label_of y) (label_of result) }
{
    match (x, y) {
        (Some(a), Some(b)) => Some(a.min(b)),
        _ => x.or(y),
    }
}

// The sum of three distances; where one is missing there is none. A let .. else for each is the
// project's form.
pub fn sum(x: Option<u64>, y: Option<u64>, z: Option<u64>) -> Option<u64>
    requires modest { Modest (label_of x) }
    requires modest_2 { Modest (label_of y) }
    requires modest_3 { Modest (label_of z) }
    ensures { Summed (label_of x) (label_of y) (label_of z) (label_of result) }
{
    let Some(a) = x else {
        return None;
    };
    let Some(b) = y else {
        return None;
    };
    let Some(c) = z else {
        return None;
    };
    Some(a + b + c)
}

// How far it is from s into the set at v: s alone, at 0, where s is in the set itself.
pub fn gate(set: &[u8], row: &[u64], s: usize, v: usize) -> Option<u64>
    requires s_in_bounds { s < length set.now }
    requires v_in_bounds { v < length set.now }
    requires row_len { length row.now ≡ length set.now }
    ensures { Told (Gate set.now row.now s v) (label_of result) }
{
    if set[s] == 1 {
        return (v == s).then_some(0);
    }
    if set[v] != 1 {
        return None;
    }
    shown(row[v])
}
