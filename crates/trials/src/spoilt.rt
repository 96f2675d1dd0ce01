// Tables handed in that break one condition each: refusal 12 from every call, and every byte as it was.
use crate::buffers::ask_refused;
use crate::calls::{ask, check, decide, write};
use crate::case::Case;
use crate::group::Group;
use crate::marks::ROOM;
use crate::outcome::{Outcome, refusal};
use crate::score::Score;
use files::rules::Rules;
use std::array;

// A chain of three paths with two rules.
fn whole() -> Rules {
    Rules {
        paths: 3,
        parent: array::from_fn(|x| (x.saturating_sub(1) % 64) as u8),
        label: [7; 64],
        required: 2,
        rules: 2,
        kind: [1; 256],
        left: [2; 256],
        right: [1; 256],
    }
}

fn try_call<F: Fn(&mut [u8]) -> Outcome>(case: &mut Case, call: F)
    requires { F.IsAlwaysCallable call }
{
    ask_refused(case, Group::Limits, &call, ROOM, refusal(12, 0));
}

// The whole table with a change.
fn try_spoilt_by<F: FnOnce(&mut Rules)>(score: &mut Score, number: u64, spoil: F)
    requires { F.IsAlwaysCallable spoil }
{
    let mut rules = whole();
    spoil(&mut rules);
    let mut case = score.case(number);
    try_call(&mut case, |out| write(&rules, out));
    try_call(&mut case, |out| decide(&rules, out));
    try_call(&mut case, |out| ask(&rules, 1, 0, 0, out));
    try_call(&mut case, |out| ask(&rules, 0, 0, 0, out));
    let got = check(&rules, b"\x01\x00\x00");
    case.note(Group::Limits, Err(refusal(12, 0)), got);
}

fn spoil_paths(score: &mut Score) {
    try_spoilt_by(score, 1203, |rules| rules.paths = 0);
    try_spoilt_by(score, 1203, |rules| rules.paths = 65);
    try_spoilt_by(score, 1205, |rules| rules.paths = 9);
    try_spoilt_by(score, 1204, |rules| rules.parent[2] = 2);
    try_spoilt_by(score, 1206, |rules| rules.parent[2] = 0);
    try_spoilt_by(score, 1216, |rules| rules.label[2] = 16384);
}

fn spoil_required(score: &mut Score) {
    try_spoilt_by(score, 1207, |rules| rules.required = 1);
    try_spoilt_by(score, 1207, |rules| rules.required = 8);
}

fn spoil_rules(score: &mut Score) {
    try_spoilt_by(score, 1208, |rules| rules.rules = 257);
    try_spoilt_by(score, 1209, |rules| rules.kind[1] = 0);
    try_spoilt_by(score, 1209, |rules| rules.kind[1] = 4);
    try_spoilt_by(score, 1210, |rules| rules.left[1] = 3);
    try_spoilt_by(score, 1210, |rules| rules.right[0] = 3);
}

pub fn try_spoilt(score: &mut Score) {
    spoil_paths(score);
    spoil_required(score);
    spoil_rules(score);
}
