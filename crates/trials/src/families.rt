// Families of sets of paths 0 to 5. A set is a number below 64 by its bits; a family is a word, bit s for the set s.
use crate::rule::Rule;
use crate::words::has;
use files::kind::Kind;

const PATHS: usize = 6;

const SETS: usize = 64;

// For each path the family of all sets that hold it.
const HOLDING: [u64; PATHS] = [
    0xAAAA_AAAA_AAAA_AAAA,
    0xCCCC_CCCC_CCCC_CCCC,
    0xF0F0_F0F0_F0F0_F0F0,
    0xFF00_FF00_FF00_FF00,
    0xFFFF_0000_FFFF_0000,
    0xFFFF_FFFF_0000_0000,
];

fn holding(x: usize) -> u64 {
    HOLDING[x.min(PATHS - 1)]
}

// Every set moved to the number that it has with a path more, which it does not hold.
fn moved(family: u64, x: usize) -> u64 {
    family.wrapping_shl(1u32 << x.min(PATHS - 1))
}

// Every set of a family united with a path.
pub fn with_path(family: u64, x: usize) -> u64 {
    let held = holding(x);
    family & held | moved(family & !held, x)
}

// Every set of a family united with a set.
fn with_set(family: u64, set: u64) -> u64 {
    (0..PATHS)
        .filter(|&x| has(set, x))
        .fold(family, |all, x| with_path(all, x))
}

// Every set of a family united with any of the members, also with none of them.
pub fn with_any(family: u64, members: u64) -> u64 {
    (0..SETS)
        .filter(|&set| has(members, set))
        .fold(family, |all, set| all | with_set(all, set as u64))
}

// Every set of a family united with one of the members.
pub fn with_one(family: u64, members: u64) -> u64 {
    (0..SETS)
        .filter(|&set| has(members, set))
        .fold(0, |all, set| all | with_set(family, set as u64))
}

// The sets that break a rule at a node on its context.
pub fn breaking(rule: &Rule) -> u64 {
    let p = holding(rule.left);
    let q = holding(rule.right);
    match rule.kind {
        Kind::Implication => p & !q,
        Kind::Absence => p & q,
        Kind::CoOccurrence => p ^ q,
    }
}

// The sets of a family that hold every path of a word.
pub fn holding_all(family: u64, word: u64) -> u64 {
    (0..PATHS)
        .filter(|&x| has(word, x))
        .fold(family, |all, x| all & holding(x))
}
