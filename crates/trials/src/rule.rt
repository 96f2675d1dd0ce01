// Rules of small sets. A question is a rule too: the one of which it asks whether it follows.
use crate::calls::ask;
use crate::outcome::Outcome;
use files::kind::Kind;
use files::rules::Rules;

pub const KINDS: [Kind; 3] = [Kind::Implication, Kind::Absence, Kind::CoOccurrence];

#[derive(Clone, Copy, Debug, PartialEq, Eq)]
pub struct Rule {
    pub kind: Kind,
    pub left: usize,
    pub right: usize,
}

impl Rule {
    pub fn implication(left: usize, right: usize) -> Self {
        Rule {
            kind: Kind::Implication,
            left,
            right,
        }
    }

    pub fn absence(left: usize, right: usize) -> Self {
        Rule {
            kind: Kind::Absence,
            left,
            right,
        }
    }

    // Asks whether the rule follows; the public call takes the kind as a number.
    pub fn ask(&self, rules: &Rules, out: &mut [u8]) -> Outcome {
        let kind = usize::from(self.kind.number());
        ask(rules, kind, self.left, self.right, out)
    }
}
