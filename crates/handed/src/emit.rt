// A part of the document, emitted: its path, its child count and its children's numbers.
ghost use Rattle.std.specs.Prelude.{◌+◌, ◌^◌, ◌≤◌, ◌<◌, ◌≡◌};
ghost use Rattle.files.specs.Sets.{hasb, members};
ghost use Rattle.reachable.specs.Sheet.{row};
ghost use Rattle.theory.specs.Handed.{gather, each_of, only_if};
ghost use Rattle.handed.specs.Emit.{first_in, one_number, kid_paths, kids_on_path, kid_count, part_in};
ghost use Rattle.handed.specs.Emitter.{Emits};

use crate::emitter::Emitter;
use crate::plan::Plan;
use files::members::{Members, joined};
use files::sets;
use reachable::sheet::Sheet;

// The children of a part: the paths of the one with all goals, if it has one, and the goals of those with one.
#[derive(Clone, Copy, Debug, PartialEq, Eq)]
pub(crate) struct Kids {
    pub(crate) whole: u64,
    pub(crate) goals: u64,
}

impl Kids {
    // The child paths of a path on which a part there has these children.
    #[tactic(auto, unfolding(crate::specs::Emit::kid_paths))]
    fn paths(self, sheet: &Sheet, path: usize) -> u64
        requires { path < 64 }
        ensures { result ≡ kid_paths sheet.now path self.whole self.goals }
    {
        let paths = sets::union(self.whole, above_any(sheet, self.goals));
        sets::common(paths, sheet.children(path))
    }

    // How many these children of a part on a path are.
    #[tactic(auto, unfolding(crate::specs::Emit::kid_count))]
    fn count(self, sheet: &Sheet, path: usize) -> usize
        requires { path < 64 }
        ensures { result ≡ kid_count sheet.now path self.whole self.goals }
    {
        sets::size(sets::common(self.whole, sheet.children(path))) + sets::size(self.goals)
    }
}

// A document to be emitted: its plan, and the sheet that this was made from.
#[derive(Clone, Copy)]
pub(crate) struct Draft<'a> {
    pub(crate) sheet: &'a Sheet,
    pub(crate) plan: &'a Plan,
}

impl Draft<'_> {
    // The numbers of the parts on a path with one goal of a set.
    fn emit_goals(self, path: usize, goals: u64, to: &mut Emitter)
        requires { (path < 64) × (to.old.at + 128 ≤ 2 ^ 30) }
        ensures { Emits (each_of (one_number self.entry.plan.now path) (members goals)) 128 to.old to.new }
    {
        for goal in Members(goals) {
            to.emit(self.plan.number_of(path, goal));
        }
    }

    // The number of the part on a path with all goals, if the path is in the set.
    fn emit_first(self, whole: u64, path: usize, to: &mut Emitter)
        requires { (path < 64) × (to.old.at + 2 ≤ 2 ^ 30) }
        ensures { Emits (only_if (hasb whole path) (first_in self.entry.plan.now path)) 2 to.old to.new }
    {
        if sets::has(whole, path) {
            to.emit(self.plan.first_on(path));
        }
    }

    // The numbers of a part's children on a path.
    fn emit_under(self, kids: Kids, path: usize, to: &mut Emitter)
        requires { (path < 64) × (to.old.at + 130 ≤ 2 ^ 30) }
        ensures { Emits (kids_on_path self.entry.sheet.now self.entry.plan.now kids.whole kids.goals path) 130 to.old to.new }
    {
        self.emit_first(kids.whole, path, to);
        self.emit_goals(path, sets::common(kids.goals, self.sheet.below(path)), to);
    }

    // The numbers of a part's children on the given paths.
    fn emit_kids(self, kids: Kids, paths: u64, to: &mut Emitter)
        requires { to.old.at + 8320 ≤ 2 ^ 30 }
        ensures { Emits (each_of (kids_on_path self.entry.sheet.now self.entry.plan.now kids.whole kids.goals) (members paths)) 8320 to.old to.new }
    {
        for path in Members(paths) {
            self.emit_under(kids, path, to);
        }
    }

    // A part on a path, with its children.
    pub(crate) fn emit_part(self, path: usize, kids: Kids, to: &mut Emitter)
        requires { (path < 64) × (to.old.at + 8324 ≤ 2 ^ 30) }
        ensures { Emits (part_in self.entry.sheet.now self.entry.plan.now path kids.whole kids.goals) 8324 to.old to.new }
    {
        to.emit(path);
        to.emit(kids.count(self.sheet, path));
        self.emit_kids(kids, kids.paths(self.sheet, path), to);
    }
}

// The paths at or above a path of a set.
fn above_any(sheet: &Sheet, paths: u64) -> u64
    ensures { result ≡ gather (λ goal. row 1024 sheet.now goal) 64 paths 0 }
{
    joined(paths, 0, |goal| sheet.above(goal))
}
