// The overlay of a set of nodes: building it, and the check of one that is lent.
#![tactic(auto)]

mod calls;
mod checking;
mod counting;
mod rows;
mod writing;

ghost use Rattle.std.specs.Prelude.{◌≡◌, length};

pub use calls::overlay;
pub use checking::check_overlay;

// The work that the overlay call is lent: labels, the queue's two slices, and touched, as C lends
// them.
#[derive(Drop)]
pub struct Work<'a> {
    pub labels: &'a mut [u64],
    pub heap: &'a mut [u32],
    pub places: &'a mut [u32],
    pub touched: &'a mut [u32],
}

// One tail's row, once the search from the tail has labelled the nodes that it reaches. The set is
// bytes, and the labels numbers, since C lends them so.
#[derive(Clone, Copy)]
struct Row<'a> {
    set: &'a [u8],
    labels: &'a [u64],
    tail: usize,
    ghost labelled: { length labels.now ≡ length set.now },
}
