// Each line that the program prints: its bytes, and one call.
ghost use Rattle.std.specs.Prelude.{◌+◌, ◌*◌, ◌≤◌, ◌<◌, length};
ghost use Rattle.hexlines.specs.Outputs.{counts, point, arc, way, no_way, kept, refused, out_text};
ghost use Rattle.hexlines.specs.Writers.{Writes};

use crate::Writer;

impl Writer<'_> {
    // `90`: how many nodes the cover has, and how many arcs the overlay.
    pub fn counts(&mut self, nodes: usize, arcs: usize)
        requires { self.old.at + 11 ≤ length self.old.buf.now }
        ensures { Writes self.old (out_text (counts nodes arcs)) self.new }
    {
        let [.., n1, n0] = nodes.to_be_bytes();
        let [.., m1, m0] = arcs.to_be_bytes();
        self.line(&[0x90, n1, n0, m1, m0]);
    }

    // `91`: a node of the cover.
    pub fn point(&mut self, node: usize)
        requires { self.old.at + 7 ≤ length self.old.buf.now }
        ensures { Writes self.old (out_text (point node)) self.new }
    {
        let [.., high, low] = node.to_be_bytes();
        self.line(&[0x91, high, low]);
    }

    // `92`: an arc of the overlay.
    pub fn arc(&mut self, tail: usize, head: u32, weight: u32)
        requires { self.old.at + 19 ≤ length self.old.buf.now }
        ensures { Writes self.old (out_text (arc tail head weight)) self.new }
    {
        let [.., t1, t0] = tail.to_be_bytes();
        let [.., h1, h0] = head.to_be_bytes();
        let [w3, w2, w1, w0] = weight.to_be_bytes();
        self.line(&[0x92, t1, t0, h1, h0, w3, w2, w1, w0]);
    }

    // `A0` with `01`: a distance.
    pub fn way(&mut self, from: u32, to: u32, distance: u64)
        requires { self.old.at + 29 ≤ length self.old.buf.now }
        ensures { Writes self.old (out_text (way from to distance)) self.new }
    {
        let [.., f1, f0] = from.to_be_bytes();
        let [.., t1, t0] = to.to_be_bytes();
        let [d7, d6, d5, d4, d3, d2, d1, d0] = distance.to_be_bytes();
        self.line(&[0xA0, f1, f0, t1, t0, 1, d7, d6, d5, d4, d3, d2, d1, d0]);
    }

    // `A0` with `00`: no way.
    pub fn no_way(&mut self, from: u32, to: u32)
        requires { self.old.at + 13 ≤ length self.old.buf.now }
        ensures { Writes self.old (out_text (no_way from to)) self.new }
    {
        let [.., f1, f0] = from.to_be_bytes();
        let [.., t1, t0] = to.to_be_bytes();
        self.line(&[0xA0, f1, f0, t1, t0, 0]);
    }

    // `FF`: a refusal's number and line.
    pub fn refusal(&mut self, number: u8, line: usize)
        requires { self.old.at + 9 ≤ length self.old.buf.now }
        ensures { Writes self.old (out_text (refused number line)) self.new }
    {
        let [.., high, low] = line.to_be_bytes();
        self.line(&[0xFF, number, high, low]);
    }

    // `B0`: the positions of a drive that are kept.
    pub fn kept(&mut self, positions: &[u32])
        requires { self.old.at + 2 * length positions.now + 5 ≤ length self.old.buf.now }
        ensures { Writes self.old (out_text (kept positions.now)) self.new }
    {
        let [.., count] = positions.len().to_be_bytes();
        self.bytes(&[0xB0, count]);
        for p in positions {
            let [.., low] = p.to_be_bytes();
            self.byte(low);
        }
        self.feed();
    }
}
