// One case: its number, and the score that it counts in.
use crate::group::Group;
use crate::score::{Failure, Score};
use crate::told::Told;

#[derive(Drop)]
pub struct Case<'a> {
    score: &'a mut Score,
    number: u64,
}

impl<'a> Case<'a> {
    pub fn new(score: &'a mut Score, number: u64) -> Self {
        Case { score, number }
    }

    // A case passes where what was got is what was expected.
    pub fn note<T: Copy + PartialEq + Told>(&mut self, group: Group, expected: T, got: T) {
        if expected == got {
            self.score.pass(group);
            return;
        }
        self.score.fail(Failure {
            group,
            case: self.number,
            expected: expected.told(),
            got: got.told(),
        });
    }
}
