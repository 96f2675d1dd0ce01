// Decisions: the ground of a question, and of an inconsistent set.
ghost use Rattle.std.specs.Prelude.{◌<◌, ◌≡◌};
ghost use Rattle.files.specs.Kinds.{kind_number};
ghost use Rattle.evidence.specs.Grounds.{dead_ground, pair_ground, root_ground, direct_in, implication_ground, exclusion_ground, grounds_on, dead_lowest, conflict_ground};

use crate::choose::{
    clash_by, clashes_from, dead_needed, first_row, pair_by, reachers, root_by, straight,
};
use crate::ground::{Both, Ground};
use crate::nearer::nearer;
use files::kind::Kind;
use files::sets;
use reachable::sheet::{Sheet, left_of, right_of};

// That p is dead: the least path at which a rule clashes, and the least rule. `clash` stands beside the sheet, here and below, since
// `grounds` and `conflict` answer for any word.
fn dead(sheet: &Sheet, clash: u64, p: usize) -> Option<Ground>
    requires { p < 64 }
    ensures { result ≡ dead_ground sheet.now clash p }
{
    let reached = clashes_from(sheet, clash, p);
    if reached == 0 {
        return None;
    }
    let y = sets::lowest(reached);
    let row = first_row(sheet, |row| sets::has(clash_by(sheet, row), y))?;
    Some(Ground::Dead(p, y, row))
}

// That a rule excludes p and q: the least rule, side 0 preferred.
fn pair(sheet: &Sheet, p: usize, q: usize) -> Option<Ground>
    ensures { result ≡ pair_ground sheet.now p q }
{
    let row = first_row(sheet, |row| pair_by(sheet, row, p, q))?;
    let side = if straight(sheet, row, p, q) { 0 } else { 1 };
    Some(Ground::Pair(p, q, row, side))
}

// That an absence at the root excludes two paths needed: the least rule, and the lowest paths that reach its sides.
fn root_pair(sheet: &Sheet, needed: u64) -> Option<Ground>
    ensures { result ≡ root_ground sheet.now needed }
{
    let row = first_row(sheet, |row| root_by(sheet, needed, row))?;
    let x = sets::lowest(reachers(sheet, needed, left_of(row)));
    let y = sets::lowest(reachers(sheet, needed, right_of(row)));
    Some(Ground::Pair(x, y, row, 0))
}

// Whether a walk leads from p to q inside their context.
#[tactic(auto, using(crate::proofs::Deciding::direct_laws))]
pub fn is_direct(sheet: &Sheet, p: usize, q: usize) -> bool
    requires { (p < 64) × (q < 64) }
    ensures { result ≡ direct_in sheet.now p q }
{
    p == q || nearer(sheet, sheet.below(sheet.context(p, q)), p, q) != 0
}

// The ground of an implication: direct if there is one, else that p is dead.
#[tactic(auto, using(crate::proofs::Deciding::implication_laws))]
fn implication(sheet: &Sheet, clash: u64, p: usize, q: usize) -> Option<Ground>
    requires { (p < 64) × (q < 64) }
    ensures { result ≡ implication_ground sheet.now clash p q }
{
    if is_direct(sheet, p, q) {
        return Some(Ground::Direct(p, q));
    }
    dead(sheet, clash, p)
}

// The ground of an absence: that p is dead, else that q is, else that a rule excludes them.
fn exclusion(sheet: &Sheet, clash: u64, p: usize, q: usize) -> Option<Ground>
    requires { (p < 64) × (q < 64) }
    ensures { result ≡ exclusion_ground sheet.now clash p q }
{
    dead(sheet, clash, p)
        .or_else(|| dead(sheet, clash, q))
        .or_else(|| pair(sheet, p, q))
}

// The ground of a question, by its kind.
#[tactic(auto, unfolding(crate::specs::Grounds::grounds_on))]
pub fn grounds(sheet: &Sheet, clash: u64, kind: Kind, p: usize, q: usize) -> Both
    requires { (p < 64) × (q < 64) }
    ensures { result ≡ grounds_on sheet.now clash (kind_number kind) p q }
{
    match kind {
        Kind::Implication => Both {
            first: implication(sheet, clash, p, q),
            second: None,
        },
        Kind::Absence => Both {
            first: exclusion(sheet, clash, p, q),
            second: None,
        },
        Kind::CoOccurrence => Both {
            first: implication(sheet, clash, p, q),
            second: implication(sheet, clash, q, p),
        },
    }
}

// The lowest path of the set is dead.
#[tactic(auto, using(crate::proofs::Deciding::lowest_laws, reachable::proofs::Growing::least_small))]
fn dead_lowest(sheet: &Sheet, clash: u64, d: u64) -> Option<Ground>
    ensures { result ≡ dead_lowest sheet.now clash d }
{
    if d == 0 {
        return None;
    }
    dead(sheet, clash, sets::lowest(d))
}

// The ground on which no document holds all the paths needed: the root pair, else that the lowest dead path needed is dead.
pub fn conflict(sheet: &Sheet, clash: u64, needed: u64) -> Option<Ground>
    ensures { result ≡ conflict_ground sheet.now clash needed }
{
    root_pair(sheet, needed).or_else(|| dead_lowest(
        sheet,
        clash,
        dead_needed(sheet, clash, needed),
    ))
}
