// Single steps by their codes.
use crate::rule::Rule;
use crate::small::SmallSet;
use files::kind::Kind;

// The path to which a rule leads from x, left to right.
fn along(rule: &Rule, x: usize) -> Option<usize> {
    (rule.kind != Kind::Absence && rule.left == x).then_some(rule.right)
}

// The path to which a rule leads from x, right to left.
fn against(rule: &Rule, x: usize) -> Option<usize> {
    (rule.kind == Kind::CoOccurrence && rule.right == x).then_some(rule.left)
}

// The path to which the step with a code leads from x.
pub fn step(set: &SmallSet, code: usize, x: usize) -> Option<usize> {
    if code == 0 {
        return (x != 0).then_some(set.parent_of(x));
    }
    let rule = set.rules().get((code - 1) / 2)?;
    if code % 2 == 1 {
        along(rule, x)
    } else {
        against(rule, x)
    }
}
