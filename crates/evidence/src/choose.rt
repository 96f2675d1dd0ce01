// Clashes, dead paths, pairs and the root pair: which absence rule it is, from the words of the sheet.
ghost use Rattle.std.specs.Prelude.{ℕ, Bool, ◌^◌, ◌≤◌, ◌<◌, ◌≡◌};
ghost use Rattle.evidence.specs.Choices.{clash_in, clashing_in, first_word, clashes_in, straight_in, pair_in, reachers_in, root_in, dead_needed};

use files::members::joined;
use files::sets;
use reachable::sheet::{Sheet, left_of, place_of, right_of};

// The paths at which the absence rule of this row clashes.
#[tactic(auto, using(crate::proofs::Choosing::clash_laws))]
pub(crate) fn clash_by(sheet: &Sheet, row: u64) -> u64
    ensures { result ≡ clash_in sheet.now row }
{
    let context = place_of(row);
    sets::common(
        sheet.back(context, left_of(row)),
        sheet.back(context, right_of(row)),
    )
}

// The paths at which some rule clashes.
#[tactic(auto, using(crate::proofs::Choosing::below_laws))]
pub fn clashing(sheet: &Sheet) -> u64
    ensures { result ≡ clashing_in sheet.now }
{
    let mut all = 0;
    for j in 0..sheet.absences() {
        all = sets::union(all, clash_by(sheet, sheet.absence(j)));
    }
    all
}

// The first row of an absence rule that passes the test.
#[tactic(auto, using(crate::proofs::Choosing::row_laws))]
pub(crate) fn first_row<F: Fn(u64) -> bool>(sheet: &Sheet, test: F) -> Option<u64>
    requires { (w : ℕ) → w < 2 ^ 64 → F.pre test w }
    ensures { (passes : ℕ → Bool) → ((w : ℕ) (r : Bool) → w < 2 ^ 64 → F.post test w r → r ≡ passes w) → result ≡ first_word sheet.now passes }
{
    for j in 0..sheet.absences() {
        let row = sheet.absence(j);
        if test(row) {
            return Some(row);
        }
    }
    None
}

// The paths of `clash` that are reachable from p inside the root.
#[tactic(auto, using(crate::proofs::Choosing::dead_laws))]
pub(crate) fn clashes_from(sheet: &Sheet, clash: u64, p: usize) -> u64
    requires { p < 64 }
    ensures { result ≡ clashes_in sheet.now clash p }
{
    sets::common(sheet.reach(0, p), clash)
}

// The dead paths that are needed: those from which a path of `clash` is reachable inside the root.
#[tactic(auto, using(crate::proofs::Choosing::dead_laws))]
pub(crate) fn dead_needed(sheet: &Sheet, clash: u64, needed: u64) -> u64
    ensures { result ≡ dead_needed sheet.now clash needed }
{
    sets::common(joined(clash, 0, |z| sheet.back(0, z)), needed)
}

// Whether the left side of the absence rule of this row is reachable from p, and its right side from q, inside its context.
#[tactic(auto, using(crate::proofs::Choosing::straight_laws))]
pub(crate) fn straight(sheet: &Sheet, row: u64, p: usize, q: usize) -> bool
    ensures { result ≡ straight_in sheet.now p q row }
{
    let context = place_of(row);
    sets::has(sheet.back(context, left_of(row)), p)
        && sets::has(sheet.back(context, right_of(row)), q)
}

// Whether the absence rule of this row excludes p and q, straight or crossed.
#[tactic(auto, using(crate::proofs::Choosing::pair_laws))]
pub(crate) fn pair_by(sheet: &Sheet, row: u64, p: usize, q: usize) -> bool
    ensures { result ≡ pair_in sheet.now p q row }
{
    straight(sheet, row, p, q) || straight(sheet, row, q, p)
}

// The paths needed from which t is reachable inside the root.
#[tactic(auto, using(crate::proofs::Choosing::reachers_is))]
pub(crate) fn reachers(sheet: &Sheet, needed: u64, t: usize) -> u64
    requires { t < 64 }
    ensures { result ≡ reachers_in sheet.now needed t }
{
    sets::common(sheet.back(0, t), needed)
}

// Whether the absence rule of this row stands at the root, with both sides reachable there from paths needed.
#[tactic(auto, using(crate::proofs::Choosing::root_laws))]
pub(crate) fn root_by(sheet: &Sheet, needed: u64, row: u64) -> bool
    ensures { result ≡ root_in sheet.now needed row }
{
    place_of(row) == 0
        && reachers(sheet, needed, left_of(row)) != 0
        && reachers(sheet, needed, right_of(row)) != 0
}
