// The paths of a set, in ascending order.
ghost use Rattle.std.specs.Prelude.{ℕ, ◌<◌, ◌≡◌};
ghost use Rattle.std.specs.Iterator.{YieldsFirst, item_count};
ghost use Rattle.files.specs.Sets.{members, join_words};

use crate::sets::{lowest, union, without_lowest};

// The paths of a set that are still to come, the least first.
#[derive(Clone, Copy, Drop)]
pub struct Members(pub u64);

impl Iterator for Members {
    type Item = usize;

    ghost next_gives = { YieldsFirst (λ s. members s.0) };

    ghost remaining = { item_count (λ s. members s.0) };

    fn next(&mut self) -> Option<usize> {
        if self.0 == 0 {
            return None;
        }
        let least = lowest(self.0);
        self.0 = without_lowest(self.0);
        Some(least)
    }
}

// What `word` gives for each path of the set, joined to `first`.
pub fn joined<F: Fn(usize) -> u64>(set: u64, first: u64, word: F) -> u64
    requires { (x : ℕ) → x < 64 → F.pre word x }
    ensures { (f : ℕ → ℕ) → ((x r : ℕ) → x < 64 → F.post word x r → r ≡ f x) → result ≡ join_words f (members set) first }
{
    let mut all = first;
    for x in Members(set) {
        all = union(all, word(x));
    }
    all
}
