// The search over all trees of a small set. It knows no walks and no reachable sets.
//
// A tree matters only through the paths that it holds: a node breaks a rule by its path and the set of paths in its subtree.
// So trees are seen through that set. A subtree whose node is on c has any number of subtrees on each child path of c, chosen
// freely and repeated freely, and nothing else; it obeys exactly if they obey and its own node breaks no rule. Hence, with the
// families of the child paths known, the sets of the obeying subtrees on c are {c} united with any members of those families,
// none or several of one family too, less the sets that break a rule whose context is c. Every finite tree is one of these, by
// its height, and every set of these comes from a finite tree. Child paths have greater numbers, so the last path goes first;
// what stands in a slot past the paths is never looked at.
use crate::families::{breaking, holding_all, with_any, with_one, with_path};
use crate::paths::{context_of, prefixes};
use crate::rule::Rule;
use crate::small::{SLOTS, SmallSet};

// The sets that nodes on a path could have by their subtrees alone, and those that break no rule there besides.
#[derive(Clone, Copy, Debug)]
pub struct Subtrees {
    free: u64,
    obeying: u64,
}

pub type Families = [Subtrees; SLOTS];

// The sets that break a rule whose context is c.
pub fn broken_at(set: &SmallSet, c: usize) -> u64 {
    let top = prefixes(set, c);
    set.rules()
        .iter()
        .filter(|rule| context_of(set, rule) == top)
        .fold(0, |all, rule| all | breaking(rule))
}

fn is_child(set: &SmallSet, k: usize, c: usize) -> bool {
    c < k && k < set.paths && set.parent_of(k) == c
}

// {c} united with any obeying subtrees on child paths of c.
fn free_at(set: &SmallSet, families: &Families, c: usize) -> u64 {
    families
        .iter()
        .enumerate()
        .filter(|&(k, _)| is_child(set, k, c))
        .fold(with_path(1, c), |all, (_, below)| {
            with_any(all, below.obeying)
        })
}

pub fn families_of(set: &SmallSet) -> Families {
    let mut families = [Subtrees {
        free: 0,
        obeying: 0,
    }; SLOTS];
    for c in (0..SLOTS).rev() {
        let free = free_at(set, &families, c);
        let obeying = free & !broken_at(set, c);
        families[c] = Subtrees { free, obeying };
    }
    families
}

// Whether some document obeys the rules and holds the required paths.
pub fn some_document(set: &SmallSet, families: &Families) -> bool {
    holding_all(families[0].obeying, set.required) != 0
}

// The free sets at c of which one subtree on a child path is in the partial family of that path.
fn partial_at(set: &SmallSet, free: u64, partial: &[u64; SLOTS], c: usize) -> u64 {
    partial
        .iter()
        .enumerate()
        .filter(|&(k, _)| is_child(set, k, c))
        .fold(0, |all, (_, &below)| all | with_one(free, below))
}

// Whether some document obeys the rules and breaks the question. Slot c: the sets of the obeying subtrees on c in which some
// node on the question's context breaks the question, from those of the child paths. No node on the context stands below
// another.
pub fn some_counter(set: &SmallSet, families: &Families, question: &Rule) -> bool {
    let top = context_of(set, question);
    let broken = breaking(question);
    let mut partial = [0; SLOTS];
    for c in (0..SLOTS).rev() {
        let Subtrees { free, obeying } = families[c];
        let breaking = if prefixes(set, c) == top {
            broken
        } else {
            partial_at(set, free, &partial, c)
        };
        partial[c] = obeying & breaking;
    }
    partial[0] != 0
}
