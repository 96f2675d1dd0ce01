// E1 to E12 of 01, with every byte of the answers.
use crate::buffers::ask_again;
use crate::calls::{acceptance, decide, read, write};
use crate::case::Case;
use crate::group::Group;
use crate::marks::{agreeing, marked};
use crate::outcome::{Answer, Answered, Outcome, refusal};
use crate::rounds::{there_and_back, write_back};
use crate::rule::Rule;
use crate::score::Score;
use files::rules::Rules;

// The document of E1 and E2, as 01 lists it.
const LISTED: &[u8] = &[6, 0, 3, 1, 2, 3, 1, 1, 4, 1, 1, 5, 4, 0, 2, 0, 3, 0];

fn try_call<F: Fn(&mut [u8]) -> Outcome>(case: &mut Case, call: F, answer: Answer, bytes: &[u8])
    requires { F.IsAlwaysCallable call }
{
    let mut room = marked();
    let got = call(&mut room);
    let length = bytes.len();
    case.note(Group::Examples, Ok(Answered { answer, length }), got);
    case.note(Group::Examples, length, agreeing(bytes, &room));
    ask_again(case, &call, got, &room);
}

// A file that is accepted, what is asked of it, and the answer with its bytes.
fn try_example<F: Fn(&Rules, &mut [u8]) -> Outcome>(
    case: &mut Case,
    file: &[u8],
    call: F,
    answer: Answer,
    bytes: &[u8],
)
    requires { F.IsAlwaysCallable call }
{
    match read(file) {
        Err(refused) => case.note(Group::Examples, Ok(()), Err(refused)),
        Ok(rules) => {
            write_back(case, &rules, file);
            there_and_back(case, &rules);
            try_call(case, |out| write(&rules, out), Answer::Written, file);
            try_call(case, |out| call(&rules, out), answer, bytes);
        }
    }
}

fn try_question(case: &mut Case, file: &[u8], question: Rule, answer: Answer, bytes: &[u8]) {
    let call = |rules: &Rules, out: &mut [u8]| question.ask(rules, out);
    try_example(case, file, call, answer, bytes);
}

fn try_verdict(case: &mut Case, file: &[u8], answer: Answer, bytes: &[u8]) {
    try_example(case, file, decide, answer, bytes);
}

// A file that is refused at its first byte.
fn try_file(score: &mut Score, file: &[u8], number: u8) {
    let expected = Err(refusal(number, 0));
    let mut case = score.case(12);
    case.note(Group::Examples, expected, acceptance(file));
}

fn try_implications(score: &mut Score) {
    let e1 = b"\x05\x0a\x00\x0b\x01\x0c\x01\x0d\x00\x0e\x00\x02\x01\x02\x04\x01\x04\x03";
    let question = Rule::implication(2, 3);
    try_question(&mut score.case(1), e1, question, Answer::No, LISTED);
    let question = Rule::implication(2, 0);
    let direct = b"\x01\x02\x00\x00";
    try_question(&mut score.case(3), e1, question, Answer::Yes, direct);
    let e4 = b"\x05\x0a\x00\x0b\x01\x0c\x01\x0d\x00\x0e\x00\x02\x01\x02\x03\x02\x02\x03";
    let question = Rule::implication(2, 4);
    let dead = b"\x02\x02\x02\x01\x00\x00\x01\x01";
    try_question(&mut score.case(4), e4, question, Answer::Yes, dead);
    let e11 = b"\x05\x0a\x00\x0b\x01\x0c\x01\x0d\x00\x0e\x00\x01\x01\x01\x02";
    let question = Rule::implication(3, 2);
    let direct = b"\x01\x02\x00\x01";
    try_question(&mut score.case(11), e11, question, Answer::Yes, direct);
}

fn try_absences(score: &mut Score) {
    let e7 = b"\x05\x0a\x00\x0b\x01\x0c\x01\x0d\x00\x0e\x00\x02\x02\x02\x04\x01\x03\x02";
    let question = Rule::absence(3, 4);
    let pair = b"\x03\x03\x04\x00\x00\x01\x03\x00";
    try_question(&mut score.case(7), e7, question, Answer::Yes, pair);
    let e8 = b"\x05\x0a\x00\x0b\x01\x0c\x01\x0d\x00\x0e\x00\x01\x02\x02\x03";
    let question = Rule::absence(2, 4);
    let counter = b"\x04\x00\x02\x01\x02\x01\x01\x03\x04\x00\x02\x00";
    try_question(&mut score.case(8), e8, question, Answer::No, counter);
}

fn try_verdicts(score: &mut Score) {
    let e2 =
        b"\x05\x0a\x00\x0b\x01\x0c\x01\x0d\x00\x0e\x01\x02\x03\x01\x02\x04\x01\x04\x03\x02\x02\x03";
    try_verdict(&mut score.case(2), e2, Answer::Consistent, LISTED);
    let e5 = b"\x05\x0a\x00\x0b\x01\x0c\x01\x0d\x00\x0e\x02\x02\x04\x01\x02\x02\x04";
    let pair = b"\x03\x02\x04\x00\x00\x00\x00";
    try_verdict(&mut score.case(5), e5, Answer::Inconsistent, pair);
    let e6 = b"\x05\x0a\x00\x0b\x01\x0c\x01\x0d\x00\x0e\x01\x02\x01\x02\x02\x04";
    let witness = b"\x03\x00\x01\x01\x01\x01\x02\x02\x00";
    try_verdict(&mut score.case(6), e6, Answer::Consistent, witness);
}

fn try_one_path(score: &mut Score) {
    let e9 = b"\x01\x0a\x00\x01\x02\x00\x00";
    let pair = b"\x03\x00\x00\x00\x00\x00\x00";
    try_verdict(&mut score.case(9), e9, Answer::Inconsistent, pair);
    let e10 = b"\x01\x0a\x00\x00";
    let witness = b"\x01\x00\x00";
    try_verdict(&mut score.case(10), e10, Answer::Consistent, witness);
}

pub fn try_examples(score: &mut Score) {
    try_implications(score);
    try_verdicts(score);
    try_absences(score);
    try_one_path(score);
    try_file(score, b"", 1);
    try_file(score, b"\x80", 1);
    try_file(score, b"\x80\x00", 2);
    try_file(score, b"\x00", 3);
}
