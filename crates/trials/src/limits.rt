// The limits of 01: the last that is accepted and the first that is refused.
use crate::buffers::ask_refused;
use crate::build::{Shape, put_document, put_file};
use crate::calls::{acceptance, ask, check, decide, finding, table_of};
use crate::case::Case;
use crate::group::Group;
use crate::marks::ROOM;
use crate::outcome::{Answer, Finding, Refused, answer_of, length_of, refusal};
use crate::rounds::{read_and_write, there_and_back};
use crate::score::Score;
use crate::spoilt::try_spoilt;
use documents::check::Checked;
use files::rules::Rules;

// More than any file or document that is built here needs.
const BUILT: usize = 4096;

// The longest document that is read, and more than any witness needs.
const LONGEST: usize = 65536;

const TWO_PATHS: &[u8] = b"\x02\x00\x00\x01\x00\x00";

// The witness of an accepted file obeys.
fn try_witness(case: &mut Case, rules: &Rules) {
    let mut room = [0; LONGEST];
    let got = decide(rules, &mut room);
    case.note(Group::Limits, Answer::Consistent, answer_of(got));
    let n = length_of(got);
    match room.get(..n) {
        Some(document) => case.note(Group::Limits, Finding::Obeys, finding(rules, document)),
        None => case.note(Group::Limits, LONGEST, n),
    }
}

fn try_accepted(case: &mut Case, file: &[u8]) {
    case.note(Group::Limits, Ok(()), acceptance(file));
    read_and_write(case, file);
    let rules = table_of(file);
    there_and_back(case, &rules);
    try_witness(case, &rules);
}

// A file of a shape that is accepted; its length.
fn accept(score: &mut Score, shape: Shape, length: usize) {
    let mut room = [0; BUILT];
    let mut case = score.case(u64::from(shape.paths));
    let built = put_file(&mut room, shape);
    case.note(Group::Limits, Some(length), built);
    if let Some(file) = built.and_then(|n| room.get(..n)) {
        try_accepted(&mut case, file);
    }
}

fn refuse(score: &mut Score, shape: Shape, expected: Refused) {
    let mut room = [0; BUILT];
    let built = put_file(&mut room, shape);
    if let Some(file) = built.and_then(|n| room.get(..n)) {
        let mut case = score.case(u64::from(shape.paths));
        case.note(Group::Limits, Err(expected), acceptance(file));
    }
}

fn try_document(case: &mut Case, document: &[u8], expected: Result<Checked, Refused>) {
    let got = check(&table_of(TWO_PATHS), document);
    case.note(Group::Limits, expected, got);
}

// A document with so many parts.
fn try_parts(score: &mut Score, parts: u32, expected: Result<Checked, Refused>) {
    let mut room = [0; BUILT];
    let built = put_document(&mut room, parts);
    if let Some(document) = built.and_then(|n| room.get(..n)) {
        try_document(&mut score.case(u64::from(parts)), document, expected);
    }
}

fn try_long_documents(score: &mut Score) {
    let longer = [0; LONGEST + 1];
    try_document(&mut score.case(65537), &longer, Err(refusal(14, 0)));
    try_document(&mut score.case(65536), &[0; LONGEST], Err(refusal(15, 0)));
}

// A question that cannot be asked of two paths: refusal 13, and every byte as it was.
fn try_question(score: &mut Score, kind: usize, left: usize, right: usize) {
    let rules = table_of(TWO_PATHS);
    let call = |out: &mut [u8]| ask(&rules, kind, left, right, out);
    let mut case = score.case(13);
    ask_refused(&mut case, Group::Limits, &call, ROOM, refusal(13, 0));
}

fn try_questions(score: &mut Score) {
    try_question(score, 0, 0, 1);
    try_question(score, 4, 0, 1);
    try_question(score, 257, 0, 1);
    try_question(score, 1, 2, 1);
    try_question(score, 2, 1, 2);
    try_question(score, 3, 256, 1);
}

fn flat(paths: u32, rules: u32) -> Shape {
    Shape {
        paths,
        chained: false,
        rules,
    }
}

fn chain(paths: u32) -> Shape {
    Shape {
        paths,
        chained: true,
        rules: 0,
    }
}

pub fn try_limits(score: &mut Score) {
    accept(score, flat(64, 0), 257);
    accept(score, flat(64, 256), 1026);
    accept(score, chain(8), 33);
    accept(score, flat(1, 256), 774);
    refuse(score, flat(65, 0), refusal(3, 0));
    refuse(score, chain(9), refusal(5, 24));
    refuse(score, flat(1, 257), refusal(8, 4));
    let labels = b"\x04\x7f\x00\x7f\x00\x80\x01\x00\xff\x7f\x00\x00";
    try_accepted(&mut score.case(16383), labels);
    try_parts(score, 512, Ok(Checked::Obeys));
    try_parts(score, 513, Err(refusal(15, 0)));
    try_long_documents(score);
    try_questions(score);
    try_spoilt(score);
}
