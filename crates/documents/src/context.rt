// The parent of a path, and the context of two paths.
ghost use Rattle.std.specs.Prelude.{◌+◌, ◌<◌, ◌≡◌};
ghost use Rattle.documents.specs.Paths.{meet, context_of};
ghost use Rattle.documents.specs.Reading.{parent_at};

// The parent of a path; 0 past the 64 paths.
#[tactic(auto, using(crate::proofs::Climbing::parent_laws))]
pub(crate) fn parent_of(parent: &[u8; 64], x: u8) -> u8
    ensures { result ≡ parent_at parent.now x }
{
    parent.get(usize::from(x)).copied().unwrap_or(0)
}

// The context of two paths: of two unequal paths the greater number climbs, at most `fuel` times.
#[tactic(auto, using(crate::proofs::Climbing::meet_laws))]
fn meet(parent: &[u8; 64], fuel: usize, p: u8, q: u8) -> u8
    ensures { result ≡ meet (parent_at parent.now) fuel p q }
{
    let mut left = p;
    let mut right = q;
    for _ in 0..fuel {
        if left == right {
            return left;
        }
        if left < right {
            right = parent_of(parent, right);
        } else {
            left = parent_of(parent, left);
        }
    }
    left
}

// The context of two paths.
#[tactic(auto, using(crate::proofs::Climbing::context_is))]
pub fn context(parent: &[u8; 64], p: u8, q: u8) -> u8
    ensures { result ≡ context_of (parent_at parent.now) p q }
{
    meet(parent, usize::from(p) + usize::from(q), p, q)
}
