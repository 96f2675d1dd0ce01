// Words: sets of numbers below 64 by their bits.

pub fn has(word: u64, x: usize) -> bool {
    x < 64 && word >> x & 1 == 1
}

// The set of one number alone.
pub fn only(x: usize) -> u64 {
    1u64 << (x % 64)
}

// Whether a word's numbers are all in another.
pub fn within(part: u64, word: u64) -> bool {
    part & word == part
}
