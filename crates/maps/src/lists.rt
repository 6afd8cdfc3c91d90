// Ascending numbers, and the starts of the arcs read.
ghost use Rattle.std.specs.Prelude.{◌≡◌, ◌≤◌, count_by, length, ltb};
ghost use Rattle.maps.specs.Lists.{belows, numbers};

// Fills the slice with 0, 1, 2 and so on.
pub fn count_up(s: &mut [u32])
    requires { length s.old ≤ 4096 }
    ensures { s.new ≡ numbers 0 (length s.old) }
{
    for (i, x) in s.iter_mut().enumerate() {
        *x = i as u32;
    }
}

// How many of the tails are below v. A `for` that adds 0 or 1, since `filter` and `count` are slower.
fn count_below(tails: &[u32], v: usize) -> u32
    requires { length tails.now ≤ 4096 }
    ensures { result ≡ count_by (λ x. ltb x v) tails.now }
{
    let mut count = 0;
    for tail in tails {
        count += u32::from((*tail as usize) < v);
    }
    count
}

// The starts of arcs with these tails. Each counts over all tails: `belows` is stated for tails in
// any order.
pub fn write_starts(tails: &[u32], starts: &mut [u32])
    requires { length tails.now ≤ 4096 }
    ensures { starts.new ≡ belows tails.now 0 (length starts.old) }
{
    for (v, start) in starts.iter_mut().enumerate() {
        *start = count_below(tails, v);
    }
}
