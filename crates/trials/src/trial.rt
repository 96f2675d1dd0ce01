// Random sets tried: the verdict and every question against the search, every document checked, every evidence replayed.
use crate::buffers::ask_again;
use crate::calls::{decide, finding, write};
use crate::case::Case;
use crate::group::Group;
use crate::judge::{broken_parts, lacking};
use crate::marks::marked;
use crate::outcome::{Answer, Finding, Outcome, answer_of, length_of};
use crate::replay::{replay_inconsistent, replay_yes};
use crate::rounds::there_and_back;
use crate::rule::{KINDS, Rule};
use crate::score::Score;
use crate::search::{some_counter, some_document};
use crate::small::{SLOTS, SmallSet};
use crate::subject::Subject;
use files::rules::Rules;

const SETS: u64 = 6000;

// What is found of a document by the rules of a set; required paths have no part in it.
fn finding_by_rules(set: &SmallSet, document: &[u8]) -> Finding {
    finding(&set.without_required().table(), document)
}

fn try_witness(case: &mut Case, subject: &Subject, document: &[u8]) {
    let set = &subject.set;
    let found = finding(&subject.table, document);
    case.note(Group::Documents, Finding::Obeys, found);
    case.note(Group::Documents, Some(0), broken_parts(set, document));
    case.note(Group::Documents, Some(0), lacking(set, document));
}

fn try_conflict(case: &mut Case, subject: &Subject, evidence: &[u8]) {
    let end = replay_inconsistent(&subject.set, &subject.deaths, evidence);
    case.note(Group::Evidence, Some(evidence.len()), end);
}

// What a call answers, what its bytes say, and the call asked again.
fn try_call<C: Fn(&mut [u8]) -> Outcome, F: FnOnce(&mut Case, &[u8])>(
    case: &mut Case,
    group: Group,
    expected: Answer,
    call: C,
    try_bytes: F,
)
    requires call { C.IsAlwaysCallable call }
    requires bytes { F.IsAlwaysCallable try_bytes }
{
    let mut room = marked();
    let got = call(&mut room);
    case.note(group, expected, answer_of(got));
    if let Some(bytes) = room.get(..length_of(got)) {
        try_bytes(case, bytes);
    }
    ask_again(case, &call, got, &room);
}

fn try_verdict(case: &mut Case, subject: &Subject) {
    let is_sound = some_document(&subject.set, &subject.families);
    let expected = if is_sound {
        Answer::Consistent
    } else {
        Answer::Inconsistent
    };
    try_call(
        case,
        Group::Verdicts,
        expected,
        |out| decide(&subject.table, out),
        |case, bytes| {
            if is_sound {
                try_witness(case, subject, bytes);
            } else {
                try_conflict(case, subject, bytes);
            }
        },
    );
}

// A counter-document obeys the rules and breaks the question, which makes a set of one rule.
fn try_counter(case: &mut Case, set: &SmallSet, question: Rule, document: &[u8]) {
    let asked = set.with_one_rule(question);
    let obeying = finding_by_rules(set, document);
    case.note(Group::Documents, Finding::Obeys, obeying);
    let breaking = finding_by_rules(&asked, document);
    case.note(Group::Documents, Finding::Broken, breaking);
    case.note(Group::Documents, Some(0), broken_parts(set, document));
    let judged = broken_parts(&asked, document).map(|parts| {
        if parts == 0 {
            Finding::Obeys
        } else {
            Finding::Broken
        }
    });
    case.note(Group::Documents, Some(Finding::Broken), judged);
}

fn try_evidence(case: &mut Case, subject: &Subject, question: Rule, evidence: &[u8]) {
    let end = replay_yes(&subject.set, &subject.deaths, question, evidence);
    case.note(Group::Evidence, Some(evidence.len()), end);
}

fn try_question(case: &mut Case, subject: &Subject, question: Rule) {
    let is_countered = some_counter(&subject.set, &subject.families, &question);
    let expected = if is_countered {
        Answer::No
    } else {
        Answer::Yes
    };
    try_call(
        case,
        Group::Questions,
        expected,
        |out| question.ask(&subject.table, out),
        |case, bytes| {
            if is_countered {
                try_counter(case, &subject.set, question, bytes);
            } else {
                try_evidence(case, subject, question, bytes);
            }
        },
    );
}

// The rule file of a set, with buffers of other lengths too.
fn try_written(case: &mut Case, rules: &Rules) {
    let call = |out: &mut [u8]| write(rules, out);
    let mut room = marked();
    let got = call(&mut room);
    ask_again(case, &call, got, &room);
}

// Three kinds, eight left and eight right paths.
const QUESTIONS: usize = KINDS.len() * SLOTS * SLOTS;

fn question_numbered(i: usize) -> Rule {
    Rule {
        kind: KINDS[i / (SLOTS * SLOTS) % KINDS.len()],
        left: i / SLOTS % SLOTS,
        right: i % SLOTS,
    }
}

// Every question of every kind; those of paths that the set lacks are left out.
fn try_questions(score: &mut Score, first: u64, subject: &Subject) {
    for i in 0..QUESTIONS {
        let question = question_numbered(i);
        if question.left < subject.set.paths && question.right < subject.set.paths {
            let mut case = score.case(first.saturating_add(i as u64));
            try_question(&mut case, subject, question);
        }
    }
}

fn try_set(score: &mut Score, number: u64) {
    let subject = Subject::numbered(number);
    let first = number % 1000000 * 1000;
    let mut case = score.case(first);
    there_and_back(&mut case, &subject.table);
    try_written(&mut case, &subject.table);
    try_verdict(&mut case, &subject);
    try_questions(score, first, &subject);
}

pub fn try_sets(score: &mut Score) {
    for number in 0..SETS {
        try_set(score, number);
    }
}
