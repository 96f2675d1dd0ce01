// What 01 calls least, found by trying everything in order: walks, dead paths, pairs.
use crate::paths::{context_of, inside, is_required, prefixes};
use crate::rule::Rule;
use crate::small::{SLOTS, SmallSet};
use crate::steps::step;
use crate::words::{has, only, within};
use files::kind::Kind;
use std::array;

// The codes of all steps: 0 to the parent, and two for each rule.
const CODES: usize = 17;

// The least code of a step from x into a word of paths.
pub fn least_code(set: &SmallSet, word: u64, x: usize) -> Option<usize> {
    (0..CODES).find(|&code| step(set, code, x).is_some_and(|y| has(word, y)))
}

// A word with the paths of the subtree from which a step leads into it.
fn widened(set: &SmallSet, top: u64, word: u64) -> u64 {
    (0..SLOTS)
        .filter(|&x| inside(set, top, x) && least_code(set, word, x).is_some())
        .fold(word, |all, x| all | only(x))
}

// Slot k: the paths from which a walk of at most k steps leads to q inside the subtree. Six paths never need more than five.
pub fn layers(set: &SmallSet, top: u64, q: usize) -> [u64; SLOTS] {
    let mut all = [0; SLOTS];
    let mut word = if inside(set, top, q) { only(q) } else { 0 };
    for layer in all.iter_mut() {
        *layer = word;
        word = widened(set, top, word);
    }
    all
}

// The least slot that has x.
pub fn distance(layers: &[u64; SLOTS], x: usize) -> Option<usize> {
    layers.iter().position(|&word| has(word, x))
}

pub fn reaches(set: &SmallSet, top: u64, x: usize, q: usize) -> bool {
    distance(&layers(set, top, q), x).is_some()
}

// Rule r, if it is an absence.
pub fn absence(set: &SmallSet, r: usize) -> Option<&Rule> {
    set.rules().get(r).filter(|rule| rule.kind == Kind::Absence)
}

// Whether absence r, on a context at or above that of p and q, excludes them: its left side is reachable from p and its right
// side from q.
fn excludes(set: &SmallSet, below: u64, r: usize, p: usize, q: usize) -> bool {
    let Some(rule) = absence(set, r) else {
        return false;
    };
    let top = context_of(set, rule);
    within(top, below) && reaches(set, top, p, rule.left) && reaches(set, top, q, rule.right)
}

// By what a path is dead: a path reachable from it, and an absence that excludes that path from itself.
#[derive(Clone, Copy, Debug, PartialEq, Eq)]
pub struct Death {
    pub by: usize,
    pub rule: usize,
}

pub type Deaths = [Option<Death>; SLOTS];

fn is_dead_by(set: &SmallSet, p: usize, death: Death) -> bool {
    let y = death.by;
    excludes(set, prefixes(set, y), death.rule, y, y) && reaches(set, 1, p, y)
}

// By the least path, then the least rule.
fn death_of(set: &SmallSet, p: usize) -> Option<Death> {
    (0..SLOTS * SLOTS)
        .map(|i| Death {
            by: i / SLOTS,
            rule: i % SLOTS,
        })
        .find(|&death| is_dead_by(set, p, death))
}

// By what every path is dead, if it is.
pub fn deaths_of(set: &SmallSet) -> Deaths {
    array::from_fn(|p| death_of(set, p))
}

// An absence that excludes two paths, its left side reachable from the first of them, or crossed.
#[derive(Clone, Copy, Debug, PartialEq, Eq)]
pub struct Exclusion {
    pub rule: usize,
    pub crossed: bool,
}

impl Exclusion {
    pub fn uncrossed(rule: usize) -> Self {
        Exclusion {
            rule,
            crossed: false,
        }
    }
}

fn is_excluded_by(set: &SmallSet, below: u64, exclusion: Exclusion, p: usize, q: usize) -> bool {
    if exclusion.crossed {
        excludes(set, below, exclusion.rule, q, p)
    } else {
        excludes(set, below, exclusion.rule, p, q)
    }
}

// By the least rule, then uncrossed before crossed.
pub fn least_pair(set: &SmallSet, below: u64, p: usize, q: usize) -> Option<Exclusion> {
    (0..SLOTS * 2)
        .map(|i| Exclusion {
            rule: i / 2,
            crossed: i % 2 == 1,
        })
        .find(|&exclusion| is_excluded_by(set, below, exclusion, p, q))
}

// The lowest required path from which y is reachable.
pub fn lowest_to(set: &SmallSet, y: usize) -> Option<usize> {
    (0..SLOTS).find(|&x| is_required(set, x) && reaches(set, 1, x, y))
}

// Whether a rule is an absence on the root whose sides are both reachable from required paths.
fn conflicts(set: &SmallSet, rule: &Rule) -> bool {
    rule.kind == Kind::Absence
        && context_of(set, rule) == 1
        && lowest_to(set, rule.left).is_some()
        && lowest_to(set, rule.right).is_some()
}

pub fn least_conflict(set: &SmallSet) -> Option<usize> {
    set.rules().iter().position(|rule| conflicts(set, rule))
}

pub fn lowest_dead(set: &SmallSet, deaths: &Deaths) -> Option<usize> {
    deaths
        .iter()
        .enumerate()
        .position(|(x, death)| is_required(set, x) && death.is_some())
}
