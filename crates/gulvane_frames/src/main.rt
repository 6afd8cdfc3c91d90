// The frame program: it cuts standard input at line feeds and hands each line to `frames`. What a
// line is and does is decided there. A read or a write that fails ends it with the error.
#![tactic(auto)]

ghost use Rattle.std.specs.Prelude.{◌≡◌, true, ◌≤◌, length, IfOk};
ghost use Rattle.frames.specs.Held.{Good};
ghost use Rattle.frames.specs.Stages.{goes};
ghost use Rattle.gulvane_frames.specs.workings.Runs.{Filled, Fits, Roomy, Unwritten};

use frames::{Areas, Phase, State, first, take_end, take_line, take_unended};
use hexlines::Writer;
use std::io;
use std::io::Read;

// What is read of the input: the bytes from `used` up to `filled` are still to be cut. Fixed arrays here and
// below, nothing from the heap.
#[derive(Drop)]
pub struct Chunk {
    pub bytes: [u8; 65536],
    pub used: usize,
    pub filled: usize,
}

// The line so far, as far as it is kept.
#[derive(Drop)]
pub struct Kept {
    pub bytes: [u8; 261],
    pub len: usize,
}

impl Kept {
    // Adds bytes, as far as there is room.
    fn add(&mut self, bytes: &[u8])
        requires { Fits self.old }
        ensures { Fits self.new }
    {
        let len = self.len;
        let more = bytes.len().min(261 - len);
        self.bytes[len..len + more].copy_from_slice(&bytes[..more]);
        self.len = len + more;
    }
}

// Moves bytes from the chunk to the line, up to a line feed, and says whether one ended them. What was
// read stays as it was. No frame has more than 260 characters, so that of a longer line the first 261
// are enough (`cut_step` in `frames`).
fn cut(chunk: &mut Chunk, line: &mut Kept) -> bool
    requires filled { Filled chunk.old }
    requires fits { Fits line.old }
    ensures filled { Filled chunk.new }
    ensures read { (chunk.new.bytes ≡ chunk.old.bytes) × (chunk.new.filled ≡ chunk.old.filled) }
    ensures fits { Fits line.new }
{
    let Chunk { used, filled, .. } = *chunk;
    let rest = &chunk.bytes[used..filled];
    match rest.iter().position(|b| *b == b'\n') {
        Some(end) => {
            line.add(&rest[..end]);
            chunk.used = used + end + 1;
            true
        }
        None => {
            line.add(rest);
            chunk.used = filled;
            false
        }
    }
}

// Prints the bytes before the writer's place. Lent the writer by `&`: tried within `flush`, and of a slice
// lent out of a `&mut Writer` no more than its length is known afterwards. Here and below an error is of
// the write or the read alone, and ends the program.
fn print_waiting(rt: &impl Print, out: &Writer) -> io::Result<()>
    requires { out.now.at ≤ length out.now.buf.now }
{
    // The whole slice first: a part of it behind this `&` is not covered by the check.
    let buf = &*out.buf;
    rt.write_all(&buf[..out.at])
}

// Prints what waits: then nothing does.
fn flush(rt: &impl Print, out: &mut Writer) -> io::Result<()>
    requires { out.old.at ≤ length out.old.buf.now }
    ensures unwritten { Unwritten out.old out.new }
    ensures none { IfOk result (λ u. out.new.at ≡ 0) }
{
    print_waiting(rt, out)?;
    out.at = 0;
    Ok(())
}

// Prints what waits once it is much.
fn drain(rt: &impl Print, out: &mut Writer) -> io::Result<()>
    requires waits { out.old.at ≤ length out.old.buf.now }
    requires long { length out.old.buf.now ≡ 131072 }
    ensures unwritten { Unwritten out.old out.new }
    ensures roomy { IfOk result (λ u. Roomy out.new) }
{
    if out.at > 49152 {
        flush(rt, out)?;
    }
    Ok(())
}

// The input has ended: a line without its line feed, or none.
fn finish(s: State, line: &Kept, out: &mut Writer) -> State
    requires going { goes s.phase ≡ true }
    requires good { Good s }
    requires roomy { Roomy out.old }
    ensures good { Good result }
    ensures waits { (out.new.at ≤ length out.new.buf.now) × (length out.new.buf.now ≡ 131072) }
{
    if line.len > 0 {
        return take_unended(s, out);
    }
    take_end(s, out)
}

// Reads more of the input, or takes a line or a piece of one. What the arrays hold after an error is not
// said.
fn turn(
    rt: &(impl Input + Print),
    s: State,
    chunk: &mut Chunk,
    line: &mut Kept,
    areas: &mut Areas,
    out: &mut Writer,
) -> io::Result<State>
    requires going { goes s.phase ≡ true }
    requires good { Good s }
    requires filled { Filled chunk.old }
    requires fits { Fits line.old }
    requires roomy { Roomy out.old }
    ensures { IfOk result (λ t. (Good t) × (Filled chunk.new) × (Fits line.new) × (Roomy out.new)) }
{
    if chunk.used == chunk.filled {
        let got = rt.reader().read(&mut chunk.bytes)?;
        chunk.used = 0;
        chunk.filled = got;
        if got > 0 {
            return Ok(s);
        }
        let last = finish(s, line, out);
        drain(rt, out)?;
        return Ok(last);
    }
    if !cut(chunk, line) {
        return Ok(s);
    }
    let next = take_line(s, &line.bytes[..line.len], areas, out);
    line.len = 0;
    drain(rt, out)?;
    Ok(next)
}

fn main(rt: HostRuntime) -> io::Result<()> {
    let mut chunk = Chunk {
        bytes: [0; 65536],
        used: 0,
        filled: 0,
    };
    let mut line = Kept {
        bytes: [0; 261],
        len: 0,
    };
    let mut areas = Areas {
        tails: [0; 2048],
        heads: [0; 2048],
        weights: [0; 2048],
        starts: [0; 513],
        set: [0; 512],
        over_starts: [0; 513],
        over_heads: [0; 4096],
        over_weights: [0; 4096],
    };
    let mut buf = [0; 131072];
    let mut out = Writer::new(&mut buf, 0);
    let mut s = first();
    // Counted, since a program is proved to end: no input takes so many turns.
    for _ in 0..u64::MAX {
        if let Phase::Stopped = s.phase {
            return flush(&rt, &mut out);
        }
        s = turn(&rt, s, &mut chunk, &mut line, &mut areas, &mut out)?;
    }
    Ok(())
}
