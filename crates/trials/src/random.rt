// Random small sets from a fixed generator: every draw is a mix of the set's number and the draw's place in the set.
use crate::rule::{KINDS, Rule};
use crate::small::{SLOTS, SmallSet};
use std::array;

// Shifts, sums that wrap and exclusive ors that spread every bit over the word.
fn mixed(n: u64) -> u64 {
    let a = (!n).wrapping_add(n << 21);
    let b = a ^ (a >> 24);
    let c = b.wrapping_add(b << 3).wrapping_add(b << 8);
    let d = c ^ (c >> 14);
    let e = d.wrapping_add(d << 2).wrapping_add(d << 4);
    let f = e ^ (e >> 28);
    f.wrapping_add(f << 31)
}

// The draws of a set, by its number.
#[derive(Clone, Copy, Debug)]
struct Draws {
    set: u64,
}

impl Draws {
    fn word(self, place: usize) -> u64 {
        mixed(self.set % 1000000000 * 1024 + (place % 1024) as u64)
    }

    // A number from `low` on and below `past`, or the root.
    fn between(self, place: usize, low: usize, past: usize) -> usize {
        if past <= low {
            return 0;
        }
        low % SLOTS + (self.word(place) % (past - low) as u64) as usize % SLOTS
    }

    // Every other set is wide, with few rules and none that names the root: there paths exclude each other and are seldom dead.
    fn is_wide(self) -> bool {
        self.set % 2 == 1
    }

    // One to six paths, mostly three to five.
    fn path_count(self) -> usize {
        match self.word(0) % 16 {
            0 => 1,
            1..=2 => 2,
            3..=5 => 3,
            6..=9 => 4,
            10..=13 => 5,
            _ => 6,
        }
    }

    fn rule_count(self) -> usize {
        if self.is_wide() {
            self.between(1, 1, 5)
        } else {
            self.between(1, 0, 7)
        }
    }

    fn parent(self, x: usize) -> usize {
        let past = if self.is_wide() && 2 < x { 2 } else { x };
        self.between(16 + x % SLOTS, 0, past)
    }

    fn side(self, place: usize, paths: usize) -> usize {
        self.between(place, usize::from(self.is_wide()), paths)
    }

    fn rule(self, r: usize, paths: usize) -> Rule {
        let at = r % SLOTS;
        Rule {
            kind: KINDS[self.between(32 + at, 0, KINDS.len()) % KINDS.len()],
            left: self.side(48 + at, paths),
            right: self.side(64 + at, paths),
        }
    }

    // Each path but the root with one chance in four.
    fn required(self, paths: usize) -> u64 {
        let past = !0u64 << (paths % 64);
        self.word(8) & self.word(9) & !past & !1
    }
}

pub fn random_set(number: u64) -> SmallSet {
    let draws = Draws { set: number };
    let paths = draws.path_count();
    SmallSet {
        paths,
        parent: array::from_fn(|x| draws.parent(x)),
        required: draws.required(paths),
        count: draws.rule_count(),
        rule: array::from_fn(|r| draws.rule(r, paths)),
    }
}
