// The goals of the parts of a document, from the words of a sheet.
ghost use Rattle.std.specs.Prelude.{◌≤◌, ◌<◌, ◌≡◌};
ghost use Rattle.reachable.specs.Sheet.{paths_in};
ghost use Rattle.theory.specs.Handed.{severalb};
ghost use Rattle.handed.specs.Goals.{inside_any, fill_in, one_in, chain_in, root_of};
ghost use Rattle.handed.specs.Plan.{all_for, opened, goals_here, kids_here, plan_path, plan_paths};

use crate::plan::Plan;
use files::members::joined;
use files::sets;
use reachable::sheet::{Sheet, highest};

// What is reachable from any of the goals, each inside the path at or above it whose slot this is.
fn inside_any(sheet: &Sheet, slot: usize, goals: u64) -> u64
    requires { slot ≤ 8 }
    ensures { result ≡ inside_any sheet.now slot goals }
{
    joined(goals, 0, |goal| sheet.inside(slot, goal))
}

// The goals of the children that cover `uncovered`, highest first, beside those chosen already.
#[tactic(auto, using(crate::proofs::GoalWords::choose_laws), unfolding(crate::specs::Goals::inside))]
fn fill(sheet: &Sheet, slot: usize, uncovered: u64, own: u64) -> u64
    requires { slot < 8 }
    ensures { result ≡ fill_in sheet.now slot 64 uncovered own }
{
    let mut left = uncovered;
    let mut chosen = own;
    for _ in 0..64usize {
        if left == 0 {
            return chosen;
        }
        let goal = highest(left);
        left = sets::difference(left, sheet.inside(slot + 1, goal));
        chosen = sets::with(chosen, goal);
    }
    chosen
}

// The goals of the one-goal children of a part on a path, whose slot this is, with one goal: two words say what its own child leaves uncovered.
#[tactic(auto, using(crate::proofs::GoalWords::one_kid_laws), unfolding(crate::specs::Goals::inside))]
pub(crate) fn one_kids(sheet: &Sheet, slot: usize, path: usize, goal: usize) -> u64
    requires { (slot < 8) × (goal < 64) }
    ensures { result ≡ one_in sheet.now slot path goal }
{
    let reached = sets::without(sheet.inside(slot, goal), path);
    if goal == path {
        return fill(sheet, slot, reached, 0);
    }
    let left = sets::difference(reached, sheet.inside(slot + 1, goal));
    fill(sheet, slot, left, sets::with(0, goal))
}

// Whether there are several goals.
#[tactic(auto, unfolding(theory::specs::Handed::severalb, theory::specs::Least::some_in))]
fn several(goals: u64) -> bool
    ensures { result ≡ severalb goals }
{
    sets::without_lowest(goals) != 0
}

// The paths that carry all goals in one part.
#[tactic(auto, unfolding(crate::specs::Goals::chain_in))]
fn chain(sheet: &Sheet, goals: u64, top: usize) -> u64
    requires { top < 64 }
    ensures { result ≡ chain_in sheet.now goals top }
{
    if several(goals) {
        return sheet.above(top);
    }
    0
}

// The goals of the one-goal parts on the root.
#[tactic(auto, unfolding(crate::specs::Goals::root_of))]
fn root_goals(goals: u64) -> u64
    ensures { result ≡ root_of goals }
{
    if several(goals) {
        return 0;
    }
    goals
}

impl Plan {
    // The same of the part on a path with all goals: above their context one child more has them all, and then no other has a goal to begin with.
    #[tactic(auto, unfolding(crate::specs::Plan::all_for, crate::specs::Goals::all_in, crate::specs::Goals::kids_in, crate::specs::Goals::own_of))]
    pub(crate) fn all_kids(&self, sheet: &Sheet, path: usize) -> u64
        requires { path < 64 }
        ensures { result ≡ all_for sheet.now self.now path }
    {
        let slot = sheet.slot(path);
        let goals = self.start();
        let reached = sets::without(inside_any(sheet, slot, goals), path);
        let own = sets::without(goals, path);
        let left = sets::difference(reached, inside_any(sheet, slot + 1, own));
        fill(sheet, slot, left, if path == self.top() { own } else { 0 })
    }

    // The goals of all one-goal children of the parts on a path: of the one-goal parts with goals `here`, and of the part with all.
    fn kids_here(&self, sheet: &Sheet, path: usize, here: u64) -> u64
        requires { path < 64 }
        ensures { result ≡ kids_here sheet.now self.now path here }
    {
        let slot = sheet.slot(path);
        let first = if sets::has(self.whole(), path) {
            self.all_kids(sheet, path)
        } else {
            0
        };
        joined(here, first, |goal| one_kids(sheet, slot, path, goal))
    }

    // The goals of the one-goal parts on a path, where the paths before it are planned.
    #[tactic(auto, unfolding(crate::specs::Plan::goals_here))]
    fn goals_here(&self, sheet: &Sheet, path: usize) -> u64
        requires { path < 64 }
        ensures { result ≡ goals_here sheet.now self.now path }
    {
        if path == 0 {
            return root_goals(self.start());
        }
        sets::common(self.named_by(sheet.parent(path)), sheet.below(path))
    }

    // A path is planned.
    #[tactic(auto, unfolding(crate::specs::Plan::plan_path))]
    fn plan_path(&mut self, sheet: &Sheet, path: usize)
        requires { path < 64 }
        ensures { self.new ≡ plan_path sheet.now self.old path }
    {
        let here = self.goals_here(sheet, path);
        let named = self.kids_here(sheet, path, here);
        self.set_goals(path, here);
        self.set_named(path, named);
    }

    // The plan of the document that begins with these goals, whose context is `top`: the goals of the parts on every path.
    pub(crate) fn of(sheet: &Sheet, goals: u64, top: usize) -> Plan
        requires { top < 64 }
        ensures { result ≡ plan_paths sheet.now (paths_in sheet.now) 0 (opened sheet.now goals top) }
    {
        let mut plan = Plan::new(chain(sheet, goals, top), goals, top);
        for path in 0..sheet.paths() {
            plan.plan_path(sheet, path);
        }
        plan
    }
}
