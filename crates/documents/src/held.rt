// From the last part to the first: the set of paths that each part holds, and the parts on each path in ascending order.
ghost use Rattle.std.specs.Prelude.{◌-◌, ◌≤◌, ◌<◌, ◌≡◌, None, IfSome, get_or, length, replicate};
ghost use Rattle.std.specs.Iterator.{at_most};
ghost use Rattle.documents.specs.Reading.{kids_at};
ghost use Rattle.documents.specs.PartList.{part_limit};
ghost use Rattle.documents.specs.Held.{held_among, Laid, Linked, Linking, Rising, Inside, follow, part_number};

use crate::document::{PARTS, Parts};
use files::reader::Reader;
use files::sets;

// The set of each part, the least part on each path, and for each part the next on its path: columns, as `held_among` and `follow`
// speak of one each.
#[derive(Clone, Copy)]
pub(crate) struct Held {
    pub sets: [u64; PARTS],
    pub first: [Option<u16>; 256],
    pub next: [Option<u16>; PARTS],
}

// The parts on a path from one on, ascending.
#[derive(Clone, Copy, Drop)]
pub(crate) struct OnPath<'a> {
    next: &'a [Option<u16>; PARTS],
    at: Option<u16>,
    ghost rising: { Rising next.now },
    ghost inside: { Inside at },
}

impl<'a> Iterator for OnPath<'a> {
    type Item = usize;

    ghost next_gives = { λ s r t. (r ≡ s.at) × IfSome r (λ n. n < part_limit) × (t.next ≡ s.next) × (t.at ≡ follow s.next.now s.at) };

    ghost remaining = { λ s. at_most (part_limit - part_number s.at) };

    fn next(&mut self) -> Option<usize> {
        let part = usize::from(self.at?);
        self.at = self.next[part];
        Some(part)
    }
}

impl Held {
    pub(crate) fn on_path(&self, path: u8) -> OnPath<'_>
        requires { Linking self.now.first self.now.next }
        ensures { (result.next.now ≡ self.now.next) × (result.at ≡ get_or self.now.first path None) }
    {
        OnPath {
            next: &self.next,
            at: self.first[usize::from(path)],
        }
    }
}

// All that the children hold whose count stands at `at`, where this begins a `Reader`, so that its caller need not.
fn children_hold(document: &[u8], at: usize, held: &[u64; PARTS]) -> u64
    ensures { result ≡ held_among held.now (kids_at document.now at) }
{
    let mut reader = Reader {
        bytes: document,
        at,
    };
    let Ok(many) = reader.number() else {
        return 0;
    };
    let mut set = 0u64;
    for _ in 0..many {
        let Ok(kid) = reader.number() else {
            return set;
        };
        set = sets::union(set, held.get(kid as usize).copied().unwrap_or(0));
    }
    set
}

// What the parts of a document hold, and the parts on each path, where no part is yet. They go where they are lent a place: returned,
// their 7 KB are copied.
pub(crate) fn hold_all(document: &[u8], parts: &Parts, held: &mut Held)
    requires { (parts.now.count ≤ part_limit) × Laid document.now parts.now.path parts.now.place parts.now.count
        × (length held.old.sets ≡ part_limit) × (held.old.first ≡ replicate 256 None) × (held.old.next ≡ replicate part_limit None) }
    ensures { Linked document.now parts.now.path parts.now.place parts.now.count 0 held.new.sets held.new.first held.new.next }
{
    for n in (0..parts.count).rev() {
        let path = usize::from(parts.path[n]);
        held.sets[n] = sets::with(children_hold(document, parts.place[n], &held.sets), path);
        held.next[n] = held.first[path];
        held.first[path] = Some(n as u16);
    }
}
