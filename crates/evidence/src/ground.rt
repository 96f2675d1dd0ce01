// Grounds: what a yes rests on, and what an inconsistent set breaks on.
ghost use Rattle.std.specs.Prelude.{◌≡◌};
ghost use Rattle.files.specs.Kinds.{kind_number};
ghost use Rattle.evidence.specs.Grounds.{says_yes};

use files::kind::Kind;

// A walk from the first path to the second; a dead path, the path that shows it and the row of the absence rule; or two paths, the
// row of the absence rule that excludes them, and its side: 0 or 1, as `InRange` and the written numbers have it.
#[derive(Clone, Copy, Debug, PartialEq, Eq)]
pub enum Ground {
    Direct(usize, usize),
    Dead(usize, usize, u64),
    Pair(usize, usize, u64, usize),
}

// The ground of a question; for a co-occurrence one each way.
#[derive(Clone, Copy, Debug, PartialEq, Eq)]
pub struct Both {
    pub first: Option<Ground>,
    pub second: Option<Ground>,
}

// Whether a question of this kind is answered yes.
#[tactic(auto, unfolding(crate::specs::Grounds::says_yes))]
pub fn yes(kind: Kind, b: Both) -> bool
    ensures { result ≡ says_yes (kind_number kind) b }
{
    b.first.is_some() && (kind != Kind::CoOccurrence || b.second.is_some())
}
