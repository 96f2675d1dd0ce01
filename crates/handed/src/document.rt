// The document handed back, written: its parts are emitted one after the other, first to count their bytes, then to store them.
ghost use Rattle.std.specs.Prelude.{◌+◌, ◌^◌, ◌≤◌, ◌<◌, ◌∷◌, get_or};
ghost use Rattle.files.specs.Number.{bytes_of_all};
ghost use Rattle.files.specs.Sets.{members};
ghost use Rattle.files.specs.Writing.{put, wrapped, written_answer, Puts};
ghost use Rattle.reachable.specs.Sheet.{slot_of};
ghost use Rattle.theory.specs.Handed.{each_of};
ghost use Rattle.handed.specs.Plan.{order_in};
ghost use Rattle.handed.specs.Emit.{Emitted, one_part_in, whole_part_in, parts_numbers};
ghost use Rattle.handed.specs.Emitter.{Emits};
ghost use Rattle.handed.specs.Writer.{document_in};

use crate::emit::{Draft, Kids};
use crate::emitter::Emitter;
use crate::goals::one_kids;
use crate::order::Order;
use crate::plan::Plan;
use files::members::Members;
use files::refusal::{Condition, Refusal};
use files::sets;
use reachable::sheet::Sheet;

impl Draft<'_> {
    // The parts on a path with one goal.
    fn emit_ones(self, path: usize, to: &mut Emitter)
        requires { (path < 64) × (to.old.at + 532736 ≤ 2 ^ 30) }
        ensures { Emits (each_of (one_part_in self.entry.sheet.now self.entry.plan.now (slot_of self.entry.sheet.now path) path) (members (get_or self.entry.plan.now path 0))) 532736 to.old to.new }
    {
        let slot = self.sheet.slot(path);
        for goal in Members(self.plan.goals_on(path)) {
            let goals = one_kids(self.sheet, slot, path, goal);
            self.emit_part(path, Kids { whole: 0, goals }, to);
        }
    }

    // The part on a path with all goals, if there is one.
    fn emit_whole(self, path: usize, to: &mut Emitter)
        requires { (path < 64) × (to.old.at + 8324 ≤ 2 ^ 30) }
        ensures { Emits (whole_part_in self.entry.sheet.now self.entry.plan.now path) 8324 to.old to.new }
    {
        let whole = self.plan.whole();
        if sets::has(whole, path) {
            let goals = self.plan.all_kids(self.sheet, path);
            self.emit_part(path, Kids { whole, goals }, to);
        }
    }

    // The parts on a path.
    fn emit_parts(self, path: usize, to: &mut Emitter)
        requires { (path < 64) × (to.old.at + 541060 ≤ 2 ^ 30) }
        ensures { Emits (parts_numbers self.entry.sheet.now self.entry.plan.now path) 541060 to.old to.new }
    {
        self.emit_whole(path, to);
        self.emit_ones(path, to);
    }

    // The parts on all paths, in their order.
    fn emit_all(self, to: &mut Emitter)
        requires { to.old.at + 277022720 ≤ 2 ^ 30 }
        ensures { Emits (each_of (parts_numbers self.entry.sheet.now self.entry.plan.now) (order_in self.entry.sheet.now)) 277022720 to.old to.new }
    {
        for path in Order::new(self.sheet) {
            self.emit_parts(path, to);
        }
    }

    // The document, its part count, then its parts, stored as far as `out` goes; how many bytes it takes.
    fn emit(self, parts: usize, out: &mut [u8]) -> usize
        ensures { Emitted (parts ∷ each_of (parts_numbers self.entry.sheet.now self.entry.plan.now) (order_in self.entry.sheet.now)) out.old 0 out.new result }
    {
        let mut to = Emitter::new(out);
        to.emit(parts);
        self.emit_all(&mut to);
        to.size()
    }

    // The document's bytes put into `out`: all of them or, where they are longer than it, none.
    fn put(self, parts: usize, out: &mut [u8]) -> Result<usize, Refusal>
        ensures { Puts (put (bytes_of_all (wrapped (parts ∷ each_of (parts_numbers self.entry.sheet.now self.entry.plan.now) (order_in self.entry.sheet.now)))) out.old) (written_answer result) out.new }
    {
        let size = self.emit(parts, &mut []);
        if out.len() < size {
            return Err(Condition::Room.at(0));
        }
        self.emit(parts, out);
        Ok(size)
    }
}

// The document that begins with these goals, whose context is `top`, put into `out`.
pub fn write_document(
    sheet: &Sheet,
    goals: u64,
    top: usize,
    out: &mut [u8],
) -> Result<usize, Refusal>
    requires { top < 64 }
    ensures { Puts (put (bytes_of_all (wrapped (document_in sheet.now goals top))) out.old) (written_answer result) out.new }
{
    let mut plan = Plan::of(sheet, goals, top);
    let parts = plan.number_parts(sheet);
    Draft { sheet, plan: &plan }.put(parts, out)
}
