// Marked buffers: every byte holds the mark before a call, so that a byte written shows.

const MARK: u8 = 0xA5;

// The room of every marked buffer: no answer about at most six paths is longer.
pub const ROOM: usize = 512;

pub fn marked() -> [u8; ROOM] {
    [MARK; ROOM]
}

// The first place from `from` on whose byte does not hold the mark, or the length.
pub fn unmarked(bytes: &[u8], from: usize) -> usize {
    bytes
        .iter()
        .enumerate()
        .position(|(at, &byte)| from <= at && byte != MARK)
        .unwrap_or(bytes.len())
}

// How many items at the start agree.
pub fn agreeing<T: PartialEq>(a: &[T], b: &[T]) -> usize {
    a.iter().zip(b).take_while(|(x, y)| x == y).count()
}
