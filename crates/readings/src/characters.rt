// From the characters of a line to its bytes.
ghost use Rattle.readings.specs.workings.Readings.{Valued, ReadsPair, ReadsText};

// The most bytes that a frame has: 64 nodes of two bytes, their count, and the frame's kind.
pub const MOST_BYTES: usize = 130;

// The number of an upper-case digit.
fn value(char: u8) -> Option<u8>
    ensures { Valued char result }
{
    match char {
        b'0'..=b'9' => Some(char - b'0'),
        b'A'..=b'F' => Some(char - b'A' + 10),
        _ => None,
    }
}

// The byte of two digits, the high one first.
fn read_pair(high: u8, low: u8) -> Option<u8>
    ensures { ReadsPair high low result }
{
    Some(value(high)? * 16 + value(low)?)
}

// Reads the line's bytes into the room, and gives them back.
pub fn read_text<'a>(line: &[u8], room: &'a mut [u8; MOST_BYTES]) -> Option<&'a [u8]>
    ensures { ReadsText line.now result }
{
    let (pairs, []) = line.as_chunks::<2>() else {
        return None;
    };
    if room.len() < pairs.len() {
        return None;
    }
    // By position: after a zip with `iter_mut` a proof knows no entry.
    for (i, &[high, low]) in pairs.iter().enumerate() {
        room[i] = read_pair(high, low)?;
    }
    Some(&room[..pairs.len()])
}
