// The refusals of files and documents of a few bytes, each with its place; the others are among the limits.
use crate::calls::{acceptance, check, table_of};
use crate::group::Group;
use crate::outcome::{Refused, refusal};
use crate::rounds::write_back;
use crate::score::Score;
use documents::check::Checked;

// A file with the number and the place of its refusal. It hands back the one-path table.
fn try_file(score: &mut Score, file: &[u8], number: u8, place: usize) {
    let mut case = score.case(u64::from(number));
    let expected = Err(refusal(number, place));
    case.note(Group::Refusals, expected, acceptance(file));
    write_back(&mut case, &table_of(file), b"\x01\x00\x00\x00");
}

fn try_document(
    score: &mut Score,
    number: u64,
    document: &[u8],
    expected: Result<Checked, Refused>,
) {
    let rules = table_of(b"\x03\x00\x00\x01\x01\x02\x01\x01\x01\x01\x01\x02");
    let mut case = score.case(number);
    case.note(Group::Refusals, expected, check(&rules, document));
}

// A document with the number and the place of its refusal.
fn try_refused(score: &mut Score, document: &[u8], number: u8, place: usize) {
    let expected = Err(refusal(number, place));
    try_document(score, u64::from(number), document, expected);
}

fn try_numbers(score: &mut Score) {
    try_file(score, b"\x01", 1, 1);
    try_file(score, b"\x01\x80", 1, 1);
    try_file(score, b"\x02\x00\x00", 1, 3);
    try_file(score, b"\x01\x80\x80", 2, 1);
    try_file(score, b"\x01\x80\x80\x01", 2, 1);
    try_file(score, b"\x01\x81\x00", 2, 1);
}

fn try_paths(score: &mut Score) {
    try_file(score, b"\x41\x00", 3, 0);
    try_file(score, b"\x02\x00\x01\x00", 4, 2);
    try_file(score, b"\x03\x00\x00\x05\x02\x00", 4, 4);
    try_file(score, b"\x03\x00\x00\x05\x00\x05\x00\x00", 6, 5);
    try_file(score, b"\x02\x00\x00\x05\x01\x00\x00", 7, 5);
    try_file(score, b"\x02\x00\x00\x05\x01\x02\x00", 7, 5);
    try_file(score, b"\x03\x00\x00\x05\x00\x06\x02\x02\x01\x00", 7, 8);
    try_file(score, b"\x03\x00\x00\x05\x00\x06\x02\x02\x02\x00", 7, 8);
}

fn try_rules(score: &mut Score) {
    try_file(score, b"\x01\x00\x00\x01\x00\x00\x00", 9, 4);
    try_file(score, b"\x01\x00\x00\x01\x04\x00\x00", 9, 4);
    try_file(score, b"\x01\x00\x00\x01\x01\x01\x00", 10, 5);
    try_file(score, b"\x01\x00\x00\x01\x01\x00\x01", 10, 6);
    try_file(score, b"\x01\x00\x00\x00\x00", 11, 4);
}

fn try_parts(score: &mut Score) {
    try_refused(score, b"\x00", 15, 0);
    try_refused(score, b"\x01\x01\x00", 16, 1);
    try_refused(score, b"\x02\x00\x01\x01\x03\x00", 16, 4);
    try_refused(score, b"\x02\x00\x00\x01\x00", 17, 3);
    try_refused(score, b"\x02\x00\x01\x01\x00\x00", 18, 4);
    try_refused(score, b"\x02\x00\x01\x01\x02\x00", 18, 4);
}

fn try_children(score: &mut Score) {
    try_refused(score, b"\x02\x00\x01\x00\x01\x00", 19, 3);
    try_refused(score, b"\x02\x00\x01\x02\x01\x00", 19, 3);
    try_refused(score, b"\x02\x00\x02\x01\x01\x01\x00", 19, 4);
    try_refused(score, b"\x01\x00\x00\x00", 11, 3);
    try_refused(score, b"\x01\x00", 1, 2);
}

// Path 1 is required, and asks for path 2 below it.
fn try_judged(score: &mut Score) {
    try_document(score, 20, b"\x01\x00\x00", Ok(Checked::Missing(1)));
    let broken = Ok(Checked::Broken(0, 1));
    try_document(score, 20, b"\x02\x00\x01\x01\x01\x00", broken);
    let obeying = b"\x03\x00\x01\x01\x01\x01\x02\x02\x00";
    try_document(score, 20, obeying, Ok(Checked::Obeys));
}

pub fn try_refusals(score: &mut Score) {
    try_numbers(score);
    try_paths(score);
    try_rules(score);
    try_parts(score);
    try_children(score);
    try_judged(score);
}
