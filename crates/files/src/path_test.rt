// The tests of a path's parent and label, after the paths before it.
ghost use Rattle.std.specs.Prelude.{◌-◌, ◌≤◌, ◌<◌, ◌≡◌};
ghost use Rattle.files.specs.RuleFile.{repeats, parent_test, label_test};
ghost use Rattle.files.specs.Rules.{paths_from};
ghost use Rattle.files.specs.Refusals.{test_number};

use crate::refusal::Condition;

// A path of depth 8 has no children.
const DEEPEST: u8 = 8;

// Whether parent and label are those of a path from 1 to `own` - 1.
#[tactic(auto, using(crate::proofs::PathTests::repeats_laws))]
fn repeats(parent: &[u8; 64], label: &[u32; 64], own: usize, p: u32, l: u32) -> bool
    requires { (1 ≤ own) × (own ≤ 64) }
    ensures { result ≡ repeats (paths_from parent.now label.now 1 (own - 1)) p l }
{
    for x in 1..own {
        if u32::from(parent[x]) == p && label[x] == l {
            return true;
        }
    }
    false
}

// The parent of path `own` is below it, and not too deep.
#[tactic(auto, using(crate::proofs::PathTests::parent_laws))]
pub(crate) fn parent_test(depth: &[u8; 64], own: usize, parent: u32) -> Result<(), Condition>
    requires { own ≤ 64 }
    ensures { test_number result ≡ parent_test depth.now own parent }
{
    let parent = parent as usize;
    if own <= parent {
        return Err(Condition::Parent);
    }
    if depth[parent] < DEEPEST {
        return Ok(());
    }
    Err(Condition::Depth)
}

// No path before path `own` has the same parent and label.
#[tactic(auto, using(crate::proofs::PathTests::label_laws))]
pub(crate) fn label_test(
    parents: &[u8; 64],
    labels: &[u32; 64],
    own: usize,
    parent: u32,
    label: u32,
) -> Result<(), Condition>
    requires { (1 ≤ own) × (own ≤ 64) }
    ensures { test_number result ≡ label_test (paths_from parents.now labels.now 1 (own - 1)) parent label }
{
    if repeats(parents, labels, own, parent, label) {
        return Err(Condition::Repeated);
    }
    Ok(())
}
