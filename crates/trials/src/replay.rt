// Evidence replayed from its bytes: each step is checked by its code, each form and each choice by what 01 says of it.
use crate::cursor::Cursor;
use crate::least::{
    Deaths, Exclusion, absence, distance, layers, least_code, least_conflict, least_pair,
    lowest_dead, lowest_to, reaches,
};
use crate::paths::{common, context_of, inside, prefixes};
use crate::rule::Rule;
use crate::small::{SLOTS, SmallSet};
use crate::steps::step;
use crate::words::within;
use files::kind::Kind;

// What is named after a form or a part of evidence reads it, and answers nothing where the bytes say something else.
#[derive(Clone, Copy, Debug)]
struct Replay<'a> {
    set: &'a SmallSet,
    deaths: &'a Deaths,
    cursor: Cursor<'a>,
}

impl<'a> Replay<'a> {
    fn new(set: &'a SmallSet, deaths: &'a Deaths, evidence: &'a [u8]) -> Self {
        Replay {
            set,
            deaths,
            cursor: Cursor::new(evidence),
        }
    }

    // The path after the step from x, the least into a word; never outside the subtree.
    fn step(&mut self, top: u64, word: u64, x: usize) -> Option<usize> {
        let code = least_code(self.set, word, x)?;
        self.cursor.expect(&[code])?;
        let y = step(self.set, code, x)?;
        inside(self.set, top, y).then_some(y)
    }

    // The least walk from p to q inside the subtree: each step leads to the paths that are nearer to its end.
    fn walk(&mut self, top: u64, p: usize, q: usize) -> Option<()> {
        let near = layers(self.set, top, q);
        let count = distance(&near, p)?;
        self.cursor.expect(&[count])?;
        let mut x = p;
        for &word in near.get(..count)?.iter().rev() {
            x = self.step(top, word, x)?;
        }
        (x == q).then_some(())
    }

    // Walks from p to one side of the absence and from q to the other, inside its context, which `below` is to be below.
    fn two_walks(&mut self, below: u64, by: Exclusion, p: usize, q: usize) -> Option<()> {
        let rule = *absence(self.set, by.rule)?;
        let top = context_of(self.set, &rule);
        if !within(top, below) {
            return None;
        }
        let (first, second) = if by.crossed {
            (rule.right, rule.left)
        } else {
            (rule.left, rule.right)
        };
        self.walk(top, p, first)?;
        self.walk(top, q, second)
    }

    // Evidence that p is dead, by the least path and rule.
    fn dead(&mut self, p: usize) -> Option<()> {
        let death = self.deaths[p % SLOTS]?;
        let y = death.by;
        self.cursor.expect(&[2, p, y, death.rule])?;
        self.walk(1, p, y)?;
        let by = Exclusion::uncrossed(death.rule);
        self.two_walks(prefixes(self.set, y), by, y, y)
    }

    fn direct(&mut self, p: usize, q: usize) -> Option<()> {
        self.cursor.expect(&[1])?;
        self.walk(common(self.set, p, q), p, q)
    }

    // A pair at a node whose prefixes are `below`.
    fn pair(&mut self, below: u64, by: Exclusion, p: usize, q: usize) -> Option<()> {
        self.cursor
            .expect(&[3, p, q, by.rule, usize::from(by.crossed)])?;
        self.two_walks(below, by, p, q)
    }

    // Direct if there is a walk, else dead for p.
    fn implication(&mut self, p: usize, q: usize) -> Option<()> {
        if reaches(self.set, common(self.set, p, q), p, q) {
            self.direct(p, q)
        } else {
            self.dead(p)
        }
    }

    fn is_dead(&self, p: usize) -> bool {
        self.deaths[p % SLOTS].is_some()
    }

    // Dead for p, else dead for q, else the pair with the least rule.
    fn absence(&mut self, p: usize, q: usize) -> Option<()> {
        if self.is_dead(p) {
            return self.dead(p);
        }
        if self.is_dead(q) {
            return self.dead(q);
        }
        let below = common(self.set, p, q);
        let by = least_pair(self.set, below, p, q)?;
        self.pair(below, by, p, q)
    }

    fn yes(&mut self, question: Rule) -> Option<()> {
        let Rule { kind, left, right } = question;
        match kind {
            Kind::Implication => self.implication(left, right),
            Kind::Absence => self.absence(left, right),
            Kind::CoOccurrence => {
                self.implication(left, right)?;
                self.implication(right, left)
            }
        }
    }

    // The least conflict on the root, else the lowest dead required path.
    fn inconsistent(&mut self) -> Option<()> {
        let Some(r) = least_conflict(self.set) else {
            return self.dead(lowest_dead(self.set, self.deaths)?);
        };
        let rule = *absence(self.set, r)?;
        let p = lowest_to(self.set, rule.left)?;
        let q = lowest_to(self.set, rule.right)?;
        self.pair(1, Exclusion::uncrossed(r), p, q)
    }
}

// The place after the evidence of a yes.
pub fn replay_yes(
    set: &SmallSet,
    deaths: &Deaths,
    question: Rule,
    evidence: &[u8],
) -> Option<usize> {
    let mut replay = Replay::new(set, deaths, evidence);
    replay.yes(question)?;
    Some(replay.cursor.place())
}

// The place after the evidence that a set is inconsistent.
pub fn replay_inconsistent(set: &SmallSet, deaths: &Deaths, evidence: &[u8]) -> Option<usize> {
    let mut replay = Replay::new(set, deaths, evidence);
    replay.inconsistent()?;
    Some(replay.cursor.place())
}
