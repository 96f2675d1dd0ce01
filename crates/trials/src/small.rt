// Small sets: at most six paths and eight rules, with slots for eight of each.
use crate::rule::Rule;
use files::rules::Rules;

pub const SLOTS: usize = 8;

// A count beside each array: a set is copied whole, and an `ArrayVec` is not `Copy`. `rules` and `parents` are the slots in use.
// Slots past the counts, and the root's parent, may hold anything.
#[derive(Clone, Copy, Debug)]
pub struct SmallSet {
    pub paths: usize,
    pub parent: [usize; SLOTS],
    pub required: u64,
    pub count: usize,
    pub rule: [Rule; SLOTS],
}

// What stands in the slots of the table that no call may look at.
const UNUSED: u8 = 201;

const UNUSED_LABEL: u32 = 99999;

// A number of each item in the first slots.
fn column<T, F: Fn(&T) -> usize, const N: usize>(items: &[T], number: F) -> [u8; N]
    requires { F.IsAlwaysCallable number }
{
    let mut all = [UNUSED; N];
    for (slot, item) in all.iter_mut().zip(items) {
        *slot = u8::try_from(number(item)).unwrap_or(UNUSED);
    }
    all
}

// Labels that differ, of one byte and of two.
fn labels(paths: usize) -> [u32; 64] {
    let mut all = [UNUSED_LABEL; 64];
    for (x, label) in all.iter_mut().enumerate().take(paths) {
        *label = (x % SLOTS * 2111 + 27) as u32;
    }
    all
}

impl SmallSet {
    pub fn rules(&self) -> &[Rule] {
        &self.rule[..self.count.min(SLOTS)]
    }

    fn parents(&self) -> &[usize] {
        &self.parent[..self.paths.min(SLOTS)]
    }

    pub fn parent_of(&self, x: usize) -> usize {
        self.parent[x % SLOTS]
    }

    pub fn without_required(&self) -> SmallSet {
        SmallSet {
            required: 0,
            ..*self
        }
    }

    // The same paths with one rule only.
    pub fn with_one_rule(&self, rule: Rule) -> SmallSet {
        SmallSet {
            required: 0,
            count: 1,
            rule: [rule; SLOTS],
            ..*self
        }
    }

    // The table handed to the public calls. The root's parent is unused too.
    pub fn table(&self) -> Rules {
        let rules = self.rules();
        let mut parent = column(self.parents(), |&x| x);
        parent[0] = UNUSED;
        Rules {
            paths: self.paths,
            parent,
            label: labels(self.paths),
            required: self.required,
            rules: self.count,
            kind: column(rules, |rule| usize::from(rule.kind.number())),
            left: column(rules, |rule| rule.left),
            right: column(rules, |rule| rule.right),
        }
    }
}
