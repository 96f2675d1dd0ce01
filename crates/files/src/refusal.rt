// Refusals: the condition that input breaks, and where.
ghost use Rattle.std.specs.Prelude.{◌≡◌};
ghost use Rattle.files.specs.Refusals.{condition_number};

// The conditions under which input is refused, by the numbers that a refusal carries.
#[derive(Clone, Copy, Debug, PartialEq, Eq)]
pub enum Condition {
    Cut = 1,
    TooLong = 2,
    PathCount = 3,
    Parent = 4,
    Depth = 5,
    Repeated = 6,
    Required = 7,
    RuleCount = 8,
    RuleKind = 9,
    RulePath = 10,
    LeftOver = 11,
    Table = 12,
    Question = 13,
    DocumentSize = 14,
    PartCount = 15,
    PartPath = 16,
    Unnamed = 17,
    NamerPath = 18,
    ChildNumber = 19,
    Room = 20,
}

// The condition that is broken, and the offset of the byte at which it is.
#[derive(Clone, Copy, Debug, PartialEq, Eq)]
pub struct Refusal {
    pub condition: Condition,
    pub offset: usize,
}

impl Condition {
    // Its number by the name that the clauses have for it, where `u8::from` would say no more.
    pub fn number(self) -> u8
        ensures { result ≡ condition_number self }
    {
        self as u8
    }

    // The refusal by this condition at a byte.
    pub fn at(self, offset: usize) -> Refusal
        ensures { result ≡ record { condition = self; offset = offset } }
    {
        Refusal {
            condition: self,
            offset,
        }
    }
}
