// What the public calls answer, in a form that compares.
use crate::told::Told;
use documents::check::Checked;
use files::refusal::Refusal;

#[derive(Clone, Copy, Debug, PartialEq, Eq)]
pub enum Answer {
    Written = 1,
    Consistent = 2,
    Inconsistent = 3,
    Yes = 4,
    No = 5,
    Refused = 6,
}

// An answer, and the length of its bytes.
#[derive(Clone, Copy, Debug, PartialEq, Eq)]
pub struct Answered {
    pub answer: Answer,
    pub length: usize,
}

// A refusal's number and place.
#[derive(Clone, Copy, Debug, PartialEq, Eq)]
pub struct Refused {
    pub number: u8,
    pub place: usize,
}

pub type Outcome = Result<Answered, Refused>;

// What was answered, without a refusal's number and place.
pub fn answer_of(outcome: Outcome) -> Answer {
    outcome.map_or(Answer::Refused, |answered| answered.answer)
}

// The length of what was written: a refusal writes nothing.
pub fn length_of(outcome: Outcome) -> usize {
    outcome.map_or(0, |answered| answered.length)
}

// What checking a document finds, without saying what is broken or missing, or why it is refused.
#[derive(Clone, Copy, Debug, PartialEq, Eq)]
pub enum Finding {
    Obeys = 1,
    Broken = 2,
    Missing = 3,
    Refused = 4,
}

impl From<Checked> for Finding {
    fn from(checked: Checked) -> Finding {
        match checked {
            Checked::Obeys => Finding::Obeys,
            Checked::Broken(_, _) => Finding::Broken,
            Checked::Missing(_) => Finding::Missing,
        }
    }
}

pub fn refusal(number: u8, place: usize) -> Refused {
    Refused { number, place }
}

impl From<Refusal> for Refused {
    fn from(refused: Refusal) -> Refused {
        refusal(refused.condition.number(), refused.offset)
    }
}

// Three numbers in one: what was said, six digits about it and six more.
fn joined(said: u64, about: usize, more: usize) -> u64 {
    said % 16 * 1000000000000 + (about % 1000000) as u64 * 1000000 + (more % 1000000) as u64
}

impl Told for Answer {
    fn told(&self) -> u64 {
        *self as u64
    }
}

impl Told for Answered {
    fn told(&self) -> u64 {
        joined(self.answer.told(), self.length, 0)
    }
}

impl Told for Refused {
    fn told(&self) -> u64 {
        joined(Answer::Refused.told(), usize::from(self.number), self.place)
    }
}

impl Told for Checked {
    fn told(&self) -> u64 {
        match self {
            Checked::Obeys => 0,
            Checked::Broken(rule, part) => joined(7, *rule, *part),
            Checked::Missing(path) => joined(8, *path, 0),
        }
    }
}

impl Told for Finding {
    fn told(&self) -> u64 {
        *self as u64
    }
}
