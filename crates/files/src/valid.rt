// Whether a table handed in meets the conditions of a rule file and has no label past the limit.
ghost use Rattle.std.specs.Prelude.{◌-◌, ◌≤◌, ◌<◌, ◌≡◌, [], IfSome, get_or};
ghost use Rattle.files.specs.RuleFile.{depths};
ghost use Rattle.files.specs.Rules.{paths_from, rules_from, padded};
ghost use Rattle.files.specs.TableTest.{passing_depth, depth_number, paths_pass, rule_at, rule_passes, rules_pass, required_pass, paths_valid, rules_valid, table_passes};

use crate::kind::Kind;
use crate::path_test::{label_test, parent_test};
use crate::rules::Rules;
use crate::sets;

// Labels are below this.
const LABELS: u32 = 16384;

// The depth of path `own` where it passes its tests after the paths before it.
fn path_depth(rules: &Rules, depth: &[u8; 64], own: usize) -> Option<u8>
    requires { (1 ≤ own) × (own < 64)
        × (depth.now ≡ padded 64 (depths (paths_from rules.now.parent rules.now.label 1 (own - 1)))) }
    ensures known { IfSome result (λ d. 0 < d) }
    ensures depth { depth_number result
        ≡ passing_depth (paths_from rules.now.parent rules.now.label 1 (own - 1)) (get_or rules.now.parent own 0) (get_or rules.now.label own 0) }
{
    let parent = u32::from(rules.parent[own]);
    let label = rules.label[own];
    parent_test(depth, own, parent).ok()?;
    label_test(&rules.parent, &rules.label, own, parent, label).ok()?;
    if LABELS <= label {
        return None;
    }
    Some(depth[parent as usize] + 1)
}

// Whether the paths after the root pass their tests.
fn paths_pass(rules: &Rules) -> bool
    requires { (1 ≤ rules.now.paths) × (rules.now.paths ≤ 64) }
    ensures { result ≡ paths_pass [] (paths_from rules.now.parent rules.now.label 1 (rules.now.paths - 1)) }
{
    let mut depth = [0u8; 64];
    depth[0] = 1;
    for own in 1..rules.paths {
        match path_depth(rules, &depth, own) {
            Some(own_depth) => depth[own] = own_depth,
            None => return false,
        }
    }
    true
}

// Whether the path count, the root's label and the other paths pass their tests.
fn paths_valid(rules: &Rules) -> bool
    ensures { result ≡ paths_valid rules.now.parent rules.now.label rules.now.paths }
{
    1 <= rules.paths && rules.paths <= 64 && rules.label[0] < LABELS && paths_pass(rules)
}

// Whether the required paths are in the table and the root is none of them.
fn required_pass(required: u64, count: usize) -> bool
    ensures { result ≡ required_pass count required }
{
    sets::common(required, 1) == 0 && sets::difference(required, sets::below(count)) == 0
}

// Whether rule x's kind and sides pass their tests.
fn rule_passes(rules: &Rules, x: usize) -> bool
    requires { x < 256 }
    ensures { result ≡ rule_passes rules.now.paths (rule_at rules.now.kind rules.now.left rules.now.right x) }
{
    if Kind::try_from(usize::from(rules.kind[x])).is_err() {
        return false;
    }
    usize::from(rules.left[x]) < rules.paths && usize::from(rules.right[x]) < rules.paths
}

// Whether all the rules pass their tests.
fn rules_pass(rules: &Rules) -> bool
    requires { rules.now.rules ≤ 256 }
    ensures { result ≡ rules_pass rules.now.paths (rules_from rules.now.kind rules.now.left rules.now.right 0 rules.now.rules) }
{
    for x in 0..rules.rules {
        if !rule_passes(rules, x) {
            return false;
        }
    }
    true
}

// Whether the rule count and the rules pass their tests.
fn rules_valid(rules: &Rules) -> bool
    ensures { result ≡ rules_valid rules.now.kind rules.now.left rules.now.right rules.now.rules rules.now.paths }
{
    rules.rules <= 256 && rules_pass(rules)
}

// Whether a table handed in is valid.
pub fn valid_table(rules: Rules) -> bool
    ensures { result ≡ table_passes rules }
{
    paths_valid(&rules) && required_pass(rules.required, rules.paths) && rules_valid(&rules)
}
