// The groups of cases.
use std::fmt;

#[derive(Clone, Copy, Debug, Default, PartialEq, Eq)]
pub enum Group {
    #[default]
    Examples,
    Limits,
    Refusals,
    Rounds,
    Buffers,
    Verdicts,
    Questions,
    Documents,
    Evidence,
}

// In the order in which the score prints them, which is that of their numbers.
pub const GROUPS: [Group; 9] = [
    Group::Examples,
    Group::Limits,
    Group::Refusals,
    Group::Rounds,
    Group::Buffers,
    Group::Verdicts,
    Group::Questions,
    Group::Documents,
    Group::Evidence,
];

impl fmt::Display for Group {
    fn fmt<W: fmt::Write>(&self, f: &mut fmt::Formatter<W>) -> fmt::Result {
        f.write_str(match self {
            Group::Examples => "examples",
            Group::Limits => "limits",
            Group::Refusals => "refusals",
            Group::Rounds => "round trips",
            Group::Buffers => "buffers",
            Group::Verdicts => "random verdicts",
            Group::Questions => "random questions",
            Group::Documents => "random documents",
            Group::Evidence => "random evidence",
        })
    }
}
