// Bytes and whole lines.
ghost use Rattle.std.specs.Prelude.{◌+◌, ◌*◌, ◌≤◌, ◌<◌, [], ◌∷◌, length};
ghost use Rattle.hexlines.specs.Text.{hex_text, line_text};
ghost use Rattle.hexlines.specs.Writers.{Writes};

use crate::Writer;

impl Writer<'_> {
    // Writes the digits of some bytes.
    pub fn bytes(&mut self, bytes: &[u8])
        requires { self.old.at + 2 * length bytes.now ≤ length self.old.buf.now }
        ensures { Writes self.old (hex_text bytes.now) self.new }
    {
        for b in bytes {
            self.byte(*b);
        }
    }

    // Ends the line.
    pub(crate) fn feed(&mut self)
        requires { self.old.at < length self.old.buf.now }
        ensures { Writes self.old (10 ∷ []) self.new }
    {
        self.buf[self.at] = b'\n';
        self.at += 1;
    }

    // Writes a line: the digits of its bytes, and the line feed.
    pub fn line(&mut self, bytes: &[u8])
        requires { self.old.at + 2 * length bytes.now < length self.old.buf.now }
        ensures { Writes self.old (line_text bytes.now) self.new }
    {
        self.bytes(bytes);
        self.feed();
    }
}
