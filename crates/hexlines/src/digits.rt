// Digits: one byte is two of them, the high one first.
ghost use Rattle.std.specs.Prelude.{◌≡◌, ◌+◌, ◌<◌, length};
ghost use Rattle.hexlines.specs.Text.{digit};
ghost use Rattle.hexlines.specs.Writers.{grown};

use crate::Writer;

// The digit of a number below 16.
fn digit_of(d: u8) -> u8
    requires { d < 16 }
    ensures { result ≡ digit d }
{
    if d < 10 {
        return b'0' + d;
    }
    b'A' + (d - 10)
}

impl Writer<'_> {
    // The borrow goes into the writer, beside the place.
    pub fn new(buf: &mut [u8], at: usize) -> Writer<'_>
        ensures { (result.buf ≡ buf.entry) × (result.at ≡ at) }
    {
        Writer { buf, at }
    }

    // Writes the two digits of a byte.
    pub fn byte(&mut self, b: u8)
        requires { self.old.at + 1 < length self.old.buf.now }
        ensures { self.new ≡ grown self.old b }
    {
        self.buf[self.at] = digit_of(b / 16);
        self.buf[self.at + 1] = digit_of(b % 16);
        self.at += 2;
    }
}
