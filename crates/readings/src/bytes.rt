// From the bytes of a line to the frame.
ghost use Rattle.std.specs.Prelude.{◌∷◌};
ghost use Rattle.readings.specs.Frames.{Reads};
ghost use Rattle.readings.specs.workings.Readings.{TellsFixed, TellsFrame, TwoOf};

use crate::characters::{MOST_BYTES, read_text};
use crate::{Line, MOST_ARCS, MOST_DRIVE, MOST_NODES};
use road::{ArcCount, NodeCount};

// The number in two bytes, high byte first.
fn two(high: u8, low: u8) -> u32
    ensures { TwoOf high low result }
{
    u32::from(u16::from_be_bytes([high, low]))
}

// A head: n(2) m(2) k(1), after its kind.
fn read_head(rest: &[u8]) -> Option<Line>
    ensures { TellsFixed (16 ∷ rest.now) result }
{
    let &[n1, n0, m1, m0, k] = rest else {
        return None;
    };
    let n = two(n1, n0) as usize;
    let m = two(m1, m0) as usize;
    if MOST_NODES < n || MOST_ARCS < m {
        return None;
    }
    Some(Line::Head {
        n: NodeCount(n),
        m: ArcCount(m),
        k: NodeCount(usize::from(k)),
    })
}

// An arc: tail(2) head(2) weight(4), after its kind.
fn read_arc(rest: &[u8]) -> Option<Line>
    ensures { TellsFixed (17 ∷ rest.now) result }
{
    let &[t1, t0, h1, h0, w3, w2, w1, w0] = rest else {
        return None;
    };
    Some(Line::Arc {
        tail: two(t1, t0),
        head: two(h1, h0),
        weight: u32::from_be_bytes([w3, w2, w1, w0]),
    })
}

// A question: from(2) to(2), after its kind.
fn read_question(rest: &[u8]) -> Option<Line>
    ensures { TellsFixed (32 ∷ rest.now) result }
{
    let &[f1, f0, t1, t0] = rest else {
        return None;
    };
    Some(Line::Question {
        from: two(f1, f0),
        to: two(t1, t0),
    })
}

// A drive: count(1) nodes(2 each), after its kind. The nodes go to the front of the slice.
fn read_drive(rest: &[u8], nodes: &mut [u32]) -> Option<Line>
    ensures { TellsFrame (48 ∷ rest.now) result nodes.old nodes.new }
{
    let [count, listed @ ..] = rest else {
        return None;
    };
    let (pairs, []) = listed.as_chunks::<2>() else {
        return None;
    };
    let count = usize::from(*count);
    if pairs.len() != count || MOST_DRIVE < count || nodes.len() < count {
        return None;
    }
    // By position: after a zip with `iter_mut` a proof knows no entry.
    for (i, &[high, low]) in pairs.iter().enumerate() {
        nodes[i] = two(high, low);
    }
    Some(Line::Drive(count))
}

// The frame of the bytes, by its kind, the first.
fn read_frame(bytes: &[u8], nodes: &mut [u32]) -> Option<Line>
    ensures { TellsFrame bytes.now result nodes.old nodes.new }
{
    let [kind, rest @ ..] = bytes else {
        return None;
    };
    match *kind {
        0x10 => read_head(rest),
        0x11 => read_arc(rest),
        0x20 => read_question(rest),
        0x30 => read_drive(rest, nodes),
        _ => None,
    }
}

// Reads a line without its line feed; the nodes of a drive go to the front of the slice.
pub fn read_line(line: &[u8], nodes: &mut [u32]) -> Option<Line>
    ensures { Reads line.now result nodes.old nodes.new }
{
    // Fixed memory: no frame has more bytes.
    let mut room = [0; MOST_BYTES];
    let bytes = read_text(line, &mut room)?;
    read_frame(bytes, nodes)
}
