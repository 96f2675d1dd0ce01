// Checking a document against the rules.
ghost use Rattle.std.specs.Prelude.{◌+◌, ◌≤◌, ◌<◌, ◌≡◌, Ok, get_or};
ghost use Rattle.files.specs.Format.{run_all};
ghost use Rattle.files.specs.Kinds.{kind_number};
ghost use Rattle.files.specs.Rules.{rules_of, rules_from};
ghost use Rattle.files.specs.Table.{parent_in};
ghost use Rattle.documents.specs.Answers.{checked, place, found};
ghost use Rattle.documents.specs.Paths.{context_of};
ghost use Rattle.documents.specs.PartList.{part_limit, document_file};
ghost use Rattle.documents.specs.Checking.{breaks, broken_from, held, or_missing, verdict, judged, CheckDocument};
ghost use Rattle.documents.specs.Reading.{parent_at, entries_from};
ghost use Rattle.documents.specs.Held.{Laid, Linking, rule, first_on, break_along, broken_along};

use crate::context::context;
use crate::document::{PARTS, Parts, Paths, read_document};
use crate::held::{Held, hold_all};
use files::kind::Kind;
use files::refusal::{Condition, Refusal};
use files::rules::{Rules, parents};
use files::sets;
use files::valid::valid_table;

// A document of more bytes is refused.
const LONGEST: usize = 65536;

// Whether a document obeys: the least broken rule and the least part that breaks it, or the least required path missing.
#[derive(Clone, Copy, Debug, PartialEq, Eq)]
pub enum Checked {
    Obeys,
    Broken(usize, usize),
    Missing(usize),
}

#[derive(Clone, Copy)]
struct Rule {
    kind: Kind,
    left: u8,
    right: u8,
}

impl Rule {
    // Whether a part on the context that holds the paths of `set` breaks the rule.
    #[tactic(auto, using(crate::proofs::Breaking::breaks_laws))]
    fn broken_by(self, set: u64) -> bool
        ensures { result ≡ breaks (rule (kind_number self.kind) self.left self.right) set }
    {
        let left = sets::has(set, usize::from(self.left));
        let right = sets::has(set, usize::from(self.right));
        match self.kind {
            Kind::Implication => left && !right,
            Kind::Absence => left && right,
            Kind::CoOccurrence => left != right,
        }
    }

    // The least part that breaks the rule: the parts on its context are looked at.
    fn broken_part(self, parent: &[u8; 64], held: &Held) -> Option<usize>
        requires { Linking held.now.first held.now.next }
        ensures { place result ≡ break_along (rule (kind_number self.kind) self.left self.right) held.now.sets held.now.next part_limit part_limit
            (first_on held.now.first (context_of (parent_at parent.now) self.left self.right)) }
    {
        for part in held.on_path(context(parent, self.left, self.right)) {
            if self.broken_by(held.sets[part]) {
                return Some(part);
            }
        }
        None
    }
}

// The least broken rule and the least part that breaks it. A rule of a kind that no valid table has counts as a co-occurrence. `parent` is
// as the public `context` takes it.
#[tactic(auto, using(crate::proofs::Judging::rules_laws))]
fn broken_rule(rules: &Rules, parent: &[u8; 64], held: &Held) -> Option<(usize, usize)>
    requires { (rules.now.rules ≤ 256) × Linking held.now.first held.now.next }
    ensures { found result ≡ broken_along (parent_at parent.now) part_limit held.now.sets held.now.first held.now.next 0
        (rules_from rules.now.kind rules.now.left rules.now.right 0 rules.now.rules) }
{
    for r in 0..rules.rules {
        let rule = Rule {
            kind: Kind::try_from(usize::from(rules.kind[r])).unwrap_or(Kind::CoOccurrence),
            left: rules.left[r],
            right: rules.right[r],
        };
        if let Some(part) = rule.broken_part(parent, held) {
            return Some((r, part));
        }
    }
    None
}

// The verdict where no rule is broken, on a document that holds the paths of `set`.
#[tactic(auto, using(crate::proofs::Judging::missing_laws))]
fn missing(required: u64, set: u64) -> Checked
    ensures { checked (Ok result) ≡ or_missing required set }
{
    let rest = sets::difference(required, set);
    if rest == 0 {
        return Checked::Obeys;
    }
    Checked::Missing(sets::lowest(rest))
}

// The verdict on the parts that were read.
#[tactic(auto, using(crate::proofs::Judging::judge_laws))]
fn judge(rules: &Rules, parent: &[u8; 64], document: &[u8], parts: &Parts) -> Checked
    requires { (rules.now.rules ≤ 256) × (1 ≤ parts.now.count) × (parts.now.count ≤ part_limit)
        × Laid document.now parts.now.path parts.now.place parts.now.count }
    ensures { checked (Ok result) ≡ verdict rules.now.required
        (get_or (held (entries_from document.now parts.now.path parts.now.place 0 parts.now.count)) 0 0)
        (broken_from (parent_at parent.now) 0 (rules_of rules.now).rules
        (entries_from document.now parts.now.path parts.now.place 0 parts.now.count)
        (held (entries_from document.now parts.now.path parts.now.place 0 parts.now.count))) }
{
    let mut held = Held {
        sets: [0; PARTS],
        first: [None; 256],
        next: [None; PARTS],
    };
    hold_all(document, parts, &mut held);
    match broken_rule(rules, parent, &held) {
        Some((rule, part)) => Checked::Broken(rule, part),
        None => missing(rules.required, held.sets[0]),
    }
}

// The verdict on a document, by a table that is valid.
fn check_parts(rules: &Rules, document: &[u8]) -> Result<Checked, Refusal>
    requires { (1 ≤ rules.now.paths) × (rules.now.paths ≤ 64) × (rules.now.rules ≤ 256) }
    ensures { checked result ≡ judged (parent_in (rules_of rules.now).paths) (rules_of rules.now).rules rules.now.required
        (run_all (document_file (parent_in (rules_of rules.now).paths) rules.now.paths) document.now) }
{
    let paths = Paths {
        count: rules.paths as u32,
        parent: parents(&rules.parent, rules.paths),
    };
    let mut parts = Parts {
        count: 0,
        path: [0; PARTS],
        place: [0; PARTS],
    };
    read_document(document, &paths, &mut parts)?;
    Ok(judge(rules, &paths.parent, document, &parts))
}

// Whether a document obeys the rules and holds the required paths.
pub fn check_document(rules: Rules, document: &[u8]) -> Result<Checked, Refusal>
    ensures { CheckDocument rules document.now (checked result) }
{
    if !valid_table(rules) {
        return Err(Condition::Table.at(0));
    }
    if LONGEST < document.len() {
        return Err(Condition::DocumentSize.at(0));
    }
    check_parts(&rules, document)
}
