// One tail's row: its arcs counted, and written into rooms.
ghost use Rattle.std.specs.Prelude.{◌≡◌, ◌≤◌, ◌<◌, length};
ghost use Rattle.road.specs.workings.Verdicts.{Tells};
ghost use Rattle.overlay.specs.Numbers.{Number};
ghost use Rattle.overlay.specs.workings.Writing.{Fits, Found, RowRoom, Writable, Wrote, WroteArc};

use crate::Row;
use road::ArcCount;

impl Row<'_> {
    // Whether an overlay arc leads from the tail to v.
    fn is_head(&self, v: usize) -> bool
        requires { v < length self.now.set.now }
        ensures { Tells result (Found self.now.set.now self.now.labels.now self.now.tail v) }
    {
        self.set[v] == 1 && v != self.tail && self.labels[v] != 0
    }

    // How many arcs the row has.
    pub fn count(&self) -> ArcCount
        ensures { Number (Found self.now.set.now self.now.labels.now self.now.tail) (length self.now.set.now) result.0 }
    {
        let mut count = 0;
        for v in 0..self.set.len() {
            if self.is_head(v) {
                count += 1;
            }
        }
        ArcCount(count)
    }

    // Writes the arc to v at the place, where there is one; gives the place of the next.
    fn write_arc(
        &self,
        v: usize,
        heads: &mut [u32],
        weights: &mut [u32],
        place: ArcCount,
    ) -> ArcCount
        requires { Writable self.now.set.now self.now.labels.now self.now.tail v place.0 (length heads.old) (length weights.old) }
        ensures { WroteArc self.now.set.now self.now.labels.now self.now.tail v place.0 heads.old weights.old heads.new weights.new result.0 }
    {
        if self.is_head(v) {
            let at = place.0;
            heads[at] = v as u32;
            weights[at] = (self.labels[v] - 1) as u32;
            return ArcCount(at + 1);
        }
        place
    }

    // Writes the row into the rooms that it is lent, and gives the count of its arcs. The labels
    // are one more than weights. Two slices, the part of the rooms from the running count on: so
    // document 01 asks it.
    pub fn write(&self, heads: &mut [u32], weights: &mut [u32]) -> ArcCount
        requires set_len_bound { length self.now.set.now ≤ 4096 }
        requires weights_len { length weights.old ≡ length heads.old }
        requires fits { Fits self.now.set.now self.now.labels.now self.now.tail }
        requires row_room { RowRoom self.now.set.now self.now.labels.now self.now.tail (length heads.old) }
        ensures { Wrote self.now.set.now self.now.labels.now self.now.tail (length self.now.set.now) heads.old weights.old heads.new weights.new result.0 }
    {
        let mut count = ArcCount(0);
        for v in 0..self.set.len() {
            count = self.write_arc(v, heads, weights, count);
        }
        count
    }
}
