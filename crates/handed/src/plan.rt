// The plan of a document: the goals of the parts on each path, and their numbers.
ghost use Rattle.std.specs.Prelude.{◌+◌, ◌%◌, ◌<◌, ◌≡◌, get_or, set, replicate};

use std::marker::Model;

// The goals of the one-goal parts on each path, those of all their children, and the number of the first part there; the paths that carry all
// goals in one part; the goals of part 0 and their context. Rows by path, which the clauses know by their place in the list.
#[derive(Drop)]
pub(crate) struct Plan {
    goals: [u64; 64],
    named: [u64; 64],
    first: [usize; 64],
    whole: u64,
    start: u64,
    top: usize,
}

// A contract sees all of it as one list.
impl Model for Plan {
    ghost use Rattle.std.specs.Prelude.{ℕ, List, [], ◌∷◌, ◌++◌};

    ghost Value = { List ℕ };

    ghost view = { λ p. p.goals ++ p.named ++ p.first ++ p.whole ∷ p.start ∷ p.top ∷ [] };
}

impl Plan {
    // The plan before any path: the paths that carry all goals in one part, the goals of part 0 and their context.
    pub(crate) fn new(whole: u64, goals: u64, top: usize) -> Self
        ensures { result ≡ set (set (set (replicate 195 0) 192 whole) 193 goals) 194 top }
    {
        Plan {
            goals: [0; 64],
            named: [0; 64],
            first: [0; 64],
            whole,
            start: goals,
            top,
        }
    }

    // The rows by name, a function each: with a const parameter every caller would write the row's offset.

    // The goals of the one-goal parts on a path.
    pub(crate) fn goals_on(&self, path: usize) -> u64
        requires { path < 64 }
        ensures { result ≡ get_or self.now path 0 }
    {
        self.goals[path]
    }

    // The goals of the one-goal children of the parts on a path.
    pub(crate) fn named_by(&self, path: usize) -> u64
        requires { path < 64 }
        ensures { result ≡ get_or self.now (64 + path) 0 }
    {
        self.named[path]
    }

    // The number of the first part on a path.
    pub(crate) fn first_on(&self, path: usize) -> usize
        requires { path < 64 }
        ensures { (result ≡ get_or self.now (128 + path) 0 % 65536) × (result < 65536) }
    {
        self.first[path] % 65536
    }

    // The paths that carry all goals in one part.
    pub(crate) fn whole(&self) -> u64
        ensures { result ≡ get_or self.now 192 0 }
    {
        self.whole
    }

    // The goals of part 0.
    pub(crate) fn start(&self) -> u64
        ensures { result ≡ get_or self.now 193 0 }
    {
        self.start
    }

    // Their context.
    pub(crate) fn top(&self) -> usize
        ensures { (result ≡ get_or self.now 194 0 % 64) × (result < 64) }
    {
        self.top % 64
    }

    // The goals of the one-goal parts on a path.
    pub(crate) fn set_goals(&mut self, path: usize, goals: u64)
        requires { path < 64 }
        ensures { self.new ≡ set self.old path goals }
    {
        self.goals[path] = goals;
    }

    // Those of their one-goal children.
    pub(crate) fn set_named(&mut self, path: usize, goals: u64)
        requires { path < 64 }
        ensures { self.new ≡ set self.old (64 + path) goals }
    {
        self.named[path] = goals;
    }

    // The number of the first part on a path.
    pub(crate) fn set_first(&mut self, path: usize, number: usize)
        requires { path < 64 }
        ensures { self.new ≡ set self.old (128 + path) number }
    {
        self.first[path] = number;
    }
}
