// The parts' numbers: how many parts are on each path, and the number of the first one there.
ghost use Rattle.std.specs.Prelude.{◌≤◌, ◌<◌, ◌≡◌, get_or};
ghost use Rattle.theory.specs.Handed.{parts_on};
ghost use Rattle.handed.specs.Plan.{order_in, placing, place_each};
ghost use Rattle.handed.specs.Emit.{number_in};

use crate::order::Order;
use crate::plan::Plan;
use files::sets;
use reachable::sheet::Sheet;

impl Plan {
    // How many parts are on a path.
    #[tactic(auto, using(crate::proofs::Places::bit_laws), unfolding(theory::specs::Handed::parts_on))]
    fn parts_on(&self, path: usize) -> usize
        requires { path < 64 }
        ensures { (result ≡ parts_on (get_or self.now 192 0) self.now path) × (result ≤ 65) }
    {
        usize::from(sets::has(self.whole(), path)) + sets::size(self.goals_on(path))
    }

    // All parts are numbered; how many there are.
    pub(crate) fn number_parts(&mut self, sheet: &Sheet) -> usize
        ensures { (placing result self.new ≡ place_each (order_in sheet.now) (placing 0 self.old)) × (result ≤ 33280) }
    {
        let mut at = 0usize;
        for path in Order::new(sheet) {
            let many = self.parts_on(path);
            self.set_first(path, at);
            at += many;
        }
        at
    }

    // The number of the part on a path with one goal.
    #[tactic(auto, using(crate::proofs::Places::bit_laws), unfolding(crate::specs::Emit::number_in))]
    pub(crate) fn number_of(&self, path: usize, goal: usize) -> usize
        requires { path < 64 }
        ensures { result ≡ number_in self.now path goal }
    {
        let whole = usize::from(sets::has(self.whole(), path));
        self.first_on(path) + whole + sets::size_below(self.goals_on(path), goal)
    }
}
