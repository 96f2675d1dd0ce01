// Round trips: rules written and read, files read and written.
use crate::calls::{read, write};
use crate::case::Case;
use crate::group::Group;
use crate::marks::agreeing;
use crate::outcome::{Answer, Answered, answer_of, length_of};
use crate::told::Told;
use files::rules::Rules;

// More than any rule file needs.
const FILE_ROOM: usize = 4096;

// At least `count` agree.
fn note_agreeing<T: PartialEq>(case: &mut Case, count: usize, a: &[T], b: &[T]) {
    case.note(Group::Rounds, count, agreeing(a, b).min(count));
}

// The parents, but the root's, which may be anything.
fn parents(rules: &Rules) -> [u8; 64] {
    let mut parents = rules.parent;
    parents[0] = 0;
    parents
}

// Field by field and no `==`, since slots past the counts may hold anything.
fn note_same(case: &mut Case, a: &Rules, b: &Rules) {
    case.note(Group::Rounds, a.paths, b.paths);
    note_agreeing(case, a.paths, &parents(a), &parents(b));
    note_agreeing(case, a.paths, &a.label, &b.label);
    case.note(Group::Rounds, a.required, b.required);
    case.note(Group::Rounds, a.rules, b.rules);
    note_agreeing(case, a.rules, &a.kind, &b.kind);
    note_agreeing(case, a.rules, &a.left, &b.left);
    note_agreeing(case, a.rules, &a.right, &b.right);
}

// The rules of a file are the given ones.
fn read_back(case: &mut Case, rules: &Rules, file: &[u8]) {
    match read(file) {
        Ok(read) => note_same(case, rules, &read),
        Err(refused) => case.note(Group::Rounds, 0, usize::from(refused.number)),
    }
}

// The rules that were read of a file are written as that file.
pub fn write_back(case: &mut Case, rules: &Rules, file: &[u8]) {
    let mut room = [0; FILE_ROOM];
    let got = write(rules, &mut room);
    let expected = Answered {
        answer: Answer::Written,
        length: file.len(),
    };
    case.note(Group::Rounds, Ok(expected), got);
    case.note(Group::Rounds, file.len(), agreeing(file, &room));
}

// Rules written and read are the same, and written once more they give the same file.
pub fn there_and_back(case: &mut Case, rules: &Rules) {
    let mut room = [0; FILE_ROOM];
    let got = write(rules, &mut room);
    case.note(Group::Rounds, Answer::Written, answer_of(got));
    let n = length_of(got);
    match room.get(..n) {
        Some(file) => {
            read_back(case, rules, file);
            read_and_write(case, file);
        }
        None => case.note(Group::Rounds, FILE_ROOM, n),
    }
}

// A file read and written is the same.
pub fn read_and_write(case: &mut Case, file: &[u8]) {
    match read(file) {
        Ok(rules) => write_back(case, &rules, file),
        Err(_) => case.note(Group::Rounds, 0, Answer::Refused.told()),
    }
}
