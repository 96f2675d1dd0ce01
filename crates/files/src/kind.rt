// The three kinds of rule, by the numbers that a rule file gives them.
ghost use Rattle.std.specs.Prelude.{◌≡◌};
ghost use Rattle.files.specs.Kinds.{kind_number, kind_in};

#[derive(Clone, Copy, Debug, PartialEq, Eq)]
pub enum Kind {
    Implication = 1,
    Absence = 2,
    CoOccurrence = 3,
}

impl Kind {
    // Its number by the name that the clauses have for it, where `u8::from` would say no more.
    pub fn number(self) -> u8
        ensures { result ≡ kind_number self }
    {
        self as u8
    }
}

// A number that no kind of rule has.
#[derive(Clone, Copy, Debug, PartialEq, Eq)]
pub struct UnknownKind(pub usize);

impl TryFrom<usize> for Kind {
    type Error = UnknownKind;

    ghost try_from_gives = { λ number r. r ≡ kind_in number };

    fn try_from(number: usize) -> Result<Self, UnknownKind> {
        match number {
            1 => Ok(Kind::Implication),
            2 => Ok(Kind::Absence),
            3 => Ok(Kind::CoOccurrence),
            _ => Err(UnknownKind(number)),
        }
    }
}
