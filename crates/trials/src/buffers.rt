// A call asked again with other buffers than the one that it answered into.
use crate::case::Case;
use crate::group::Group;
use crate::marks::{ROOM, agreeing, marked, unmarked};
use crate::outcome::{Outcome, Refused, length_of, refusal};

// With a buffer of exactly the answer's length: the same answer, and nothing past it.
fn ask_exact<F: Fn(&mut [u8]) -> Outcome>(case: &mut Case, call: &F, first: Outcome, bytes: &[u8])
    requires { F.IsAlwaysCallable call.now }
{
    let n = bytes.len();
    let mut room = marked();
    if let Some(out) = room.get_mut(..n) {
        let got = call(out);
        case.note(Group::Buffers, first, got);
        case.note(Group::Buffers, n, agreeing(bytes, &room));
        case.note(Group::Buffers, ROOM, unmarked(&room, n));
    }
}

// With a buffer of a length for which the call is refused: every byte as it was.
pub fn ask_refused<F: Fn(&mut [u8]) -> Outcome>(
    case: &mut Case,
    group: Group,
    call: &F,
    length: usize,
    expected: Refused,
)
    requires { F.IsAlwaysCallable call.now }
{
    let mut room = marked();
    if let Some(out) = room.get_mut(..length) {
        let got = call(out);
        case.note(group, Err(expected), got);
        case.note(group, ROOM, unmarked(&room, 0));
    }
}

// With a buffer one byte short of the answer's length.
fn ask_short<F: Fn(&mut [u8]) -> Outcome>(case: &mut Case, call: &F, length: usize)
    requires { F.IsAlwaysCallable call.now }
{
    match length.checked_sub(1) {
        Some(n) => ask_refused(case, Group::Buffers, call, n, refusal(20, 0)),
        None => case.note(Group::Buffers, 1, length),
    }
}

// An answer, from a buffer that was longer and is handed in, asked again.
pub fn ask_again<F: Fn(&mut [u8]) -> Outcome>(
    case: &mut Case,
    call: &F,
    first: Outcome,
    room: &[u8],
)
    requires { F.IsAlwaysCallable call.now }
{
    let n = length_of(first);
    case.note(Group::Buffers, room.len(), unmarked(room, n));
    match room.get(..n) {
        Some(bytes) => {
            ask_exact(case, call, first, bytes);
            ask_short(case, call, n);
        }
        None => case.note(Group::Buffers, room.len(), n),
    }
}
