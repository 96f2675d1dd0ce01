// Paths by the words of their prefixes: bit x of a path's word says that x is the path or above it. The root's word is 1.
use crate::rule::Rule;
use crate::small::{SLOTS, SmallSet};
use crate::words::{has, only, within};

pub fn prefixes(set: &SmallSet, x: usize) -> u64 {
    let mut word = 0;
    let mut y = x;
    for _ in 0..SLOTS {
        word |= only(y);
        y = set.parent_of(y);
    }
    word
}

// The common prefixes of two paths: the prefixes of their context.
pub fn common(set: &SmallSet, p: usize, q: usize) -> u64 {
    prefixes(set, p) & prefixes(set, q)
}

// The prefixes of a rule's context.
pub fn context_of(set: &SmallSet, rule: &Rule) -> u64 {
    common(set, rule.left, rule.right)
}

// Whether a path is in the subtree of the context whose prefixes are `top`.
pub fn inside(set: &SmallSet, top: u64, x: usize) -> bool {
    x < set.paths && within(top, prefixes(set, x))
}

// The root counts as required.
pub fn is_required(set: &SmallSet, x: usize) -> bool {
    x < set.paths && has(set.required | 1, x)
}
