// The rule table by value.
ghost use Rattle.std.specs.Prelude.{◌≤◌, ◌≡◌};
ghost use Rattle.files.specs.Rules.{parents_in, first_of};

// Paths 0 to `paths` - 1 with their parents and labels, the required paths as a set (bit x: path x is required), and
// rules 0 to `rules` - 1. Slots past the counts, and the root's parent, may hold anything. In columns and with kinds by number:
// refusal 12 and `ValidTable` speak of tables of any counts and kinds.
#[derive(Clone, Copy)]
pub struct Rules {
    pub paths: usize,
    pub parent: [u8; 64],
    pub label: [u32; 64],
    pub required: u64,
    pub rules: usize,
    pub kind: [u8; 256],
    pub left: [u8; 256],
    pub right: [u8; 256],
}

// The parents of the first `count` paths, and 0 in every other slot, the root's among them.
pub fn parents(parent: &[u8; 64], count: usize) -> [u8; 64]
    ensures { result ≡ parents_in parent.now count }
{
    let mut clean = [0u8; 64];
    for x in 1..count.min(64) {
        clean[x] = parent[x];
    }
    clean
}
