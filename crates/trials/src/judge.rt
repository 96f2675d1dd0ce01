// Documents judged part by part from their bytes, without the document checker.
use crate::cursor::Cursor;
use crate::search::broken_at;
use crate::small::SmallSet;
use crate::words::{has, only};

// Slots for the parts of a document about at most six paths, and one more.
const PARTS: usize = 32;

// A part's path, and the numbers of its children as a word.
#[derive(Clone, Copy, Debug)]
struct Part {
    path: usize,
    children: u64,
}

type Parts = [Option<Part>; PARTS];

fn read_part(cursor: &mut Cursor) -> Option<Part> {
    let path = cursor.number()?;
    let mut children = 0;
    for _ in 0..cursor.number()? {
        children |= only(cursor.number()?);
    }
    Some(Part { path, children })
}

fn read_parts(document: &[u8]) -> Option<Parts> {
    let mut cursor = Cursor::new(document);
    let count = cursor.number()?;
    let mut parts = [None; PARTS];
    for part in parts.iter_mut().take(count) {
        *part = Some(read_part(&mut cursor)?);
    }
    Some(parts)
}

// The paths that a part holds, with those of the parts after it known.
fn held_by(part: Part, held: &[u64; PARTS]) -> u64 {
    held.iter()
        .enumerate()
        .filter(|&(n, _)| has(part.children, n))
        .fold(only(part.path), |all, (_, &word)| all | word)
}

// From the last part to the first, since a part holds what those after it hold.
fn held_by_all(parts: &Parts) -> [u64; PARTS] {
    let mut held = [0; PARTS];
    for n in (0..PARTS).rev() {
        held[n] = parts[n].map_or(0, |part| held_by(part, &held));
    }
    held
}

// Whether a part that holds the paths of a word breaks a rule.
fn is_broken(set: &SmallSet, part: Part, held: u64) -> bool {
    has(broken_at(set, part.path), (held % 64) as usize)
}

// The parts that break a rule, as a word.
pub fn broken_parts(set: &SmallSet, document: &[u8]) -> Option<u64> {
    let parts = read_parts(document)?;
    let held = held_by_all(&parts);
    let broken = parts
        .iter()
        .zip(&held)
        .enumerate()
        .filter(|&(_, (part, &word))| part.is_some_and(|part| is_broken(set, part, word)))
        .fold(0, |all, (n, _)| all | only(n));
    Some(broken)
}

// The required paths that a document lacks, as a word.
pub fn lacking(set: &SmallSet, document: &[u8]) -> Option<u64> {
    let parts = read_parts(document)?;
    let held = held_by_all(&parts);
    Some(set.required & !held[0])
}
