// Reading a rule file.
ghost use Rattle.std.specs.Prelude.{◌-◌, ◌≤◌, ◌<◌, ◌≡◌, MatchResult, [], drop};
ghost use Rattle.files.specs.Number.{number_in, numbered, passed, tested};
ghost use Rattle.files.specs.Format.{run_all, got, refused};
ghost use Rattle.files.specs.RuleFile.{between, one_path, more_paths, depths, one_rule, more_rules, more_ascending, rule_file};
ghost use Rattle.files.specs.Rules.{paths_from, padded, table_of, no_rules};
ghost use Rattle.files.specs.Refusals.{condition_number};
ghost use Rattle.files.specs.Readers.{Reads};
ghost use Rattle.files.specs.Reading.{PathIs, PathsIn, RequiredAre, RuleIs, RulesIn, StandsFor, reading, ReadRules};

use crate::number::{Number, read_number};
use crate::path_test::{label_test, parent_test};
use crate::reader::Reader;
use crate::refusal::{Condition, Refusal};
use crate::rules::Rules;
use crate::sets;

// What reading hands back: whether the file was accepted, and its rules; of a refused file the one-path table.
#[derive(Clone, Copy)]
pub struct Reading {
    pub answer: Result<(), Refusal>,
    pub rules: Rules,
}

#[derive(Clone, Copy)]
struct OnePath {
    parent: u8,
    label: u32,
    depth: u8,
}

// The kind is a number, as `Rules` holds it: a table may have any.
#[derive(Clone, Copy)]
struct OneRule {
    kind: u8,
    left: u8,
    right: u8,
}

// A number of which the test says `why`: the number where that is 0, else the refusal. By numbers, since its contract is of any.
#[tactic(auto, using(crate::proofs::Passed::passed_laws))]
pub fn passed(n: u32, width: usize, why: u8) -> Result<Number, u8>
    ensures { numbered result ≡ passed n width why }
{
    if 0 < why {
        return Err(why);
    }
    Ok(Number { value: n, width })
}

// A number that stands from `low` up to and without `past`, or its refusal, whose number is any too.
#[tactic(auto, using(crate::proofs::Passed::tested_laws))]
pub fn read_between(s: &[u8], at: usize, low: u32, past: u32, refusal: u8) -> Result<Number, u8>
    ensures { numbered result ≡ tested (between low past refusal) (number_in (drop at s.now)) }
{
    match read_number(s, at) {
        Err(condition) => Err(condition.number()),
        Ok(number) => {
            let n = number.value;
            let width = number.width;
            if n < low {
                return passed(n, width, refusal);
            }
            if past <= n {
                return passed(n, width, refusal);
            }
            Ok(Number { value: n, width })
        }
    }
}

// Path `own`, after the paths before it.
fn read_path(
    reader: &mut Reader,
    own: usize,
    parents: &[u8; 64],
    labels: &[u32; 64],
    depth: &[u8; 64],
) -> Result<OnePath, Refusal>
    requires { (1 ≤ own) × (own < 64)
        × (depth.now ≡ padded 64 (depths (paths_from parents.now labels.now 1 (own - 1)))) }
    ensures { Reads (PathIs depth.now) (one_path (paths_from parents.now labels.now 1 (own - 1))) reader.old reader.new result }
{
    let parent = reader.tested(|parent| parent_test(depth, own, parent))?;
    let label = reader.tested(|label| label_test(parents, labels, own, parent, label))?;
    Ok(OnePath {
        parent: parent as u8,
        label,
        depth: depth[parent as usize] + 1,
    })
}

// Paths 1 to `count` - 1, after the root with its label, into the columns of a table. They are gathered in columns of its own first, as in
// `read_rule_list`.
fn read_paths(
    reader: &mut Reader,
    count: usize,
    root: u32,
    parent: &mut [u8; 64],
    label: &mut [u32; 64],
) -> Result<(), Refusal>
    requires { (1 ≤ count) × (count ≤ 64) }
    ensures { Reads (λ _. PathsIn count parent.new label.new root) (more_paths (count - 1) []) reader.old reader.new result }
{
    let mut parents = [0u8; 64];
    let mut labels = [0u32; 64];
    let mut depth = [0u8; 64];
    labels[0] = root;
    depth[0] = 1;
    for own in 1..count {
        let path = read_path(reader, own, &parents, &labels, &depth)?;
        parents[own] = path.parent;
        labels[own] = path.label;
        depth[own] = path.depth;
    }
    *parent = parents;
    *label = labels;
    Ok(())
}

// So many required paths, ascending, each in a table of `count` paths.
fn read_required(reader: &mut Reader, count: u32, many: u32) -> Result<u64, Refusal>
    requires { count ≤ 64 }
    ensures { Reads RequiredAre (more_ascending 7 count many 0 []) reader.old reader.new result }
{
    let mut required = 0u64;
    let mut last = 0u32;
    for _ in 0..many {
        last = reader.number_between(last + 1, count, Condition::Required)?;
        required = sets::with(required, last as usize);
    }
    Ok(required)
}

// One rule.
fn read_rule(reader: &mut Reader, count: u32) -> Result<OneRule, Refusal>
    requires { count ≤ 64 }
    ensures { Reads RuleIs (one_rule count) reader.old reader.new result }
{
    let kind = reader.number_between(1, 4, Condition::RuleKind)?;
    let left = reader.number_between(0, count, Condition::RulePath)?;
    let right = reader.number_between(0, count, Condition::RulePath)?;
    Ok(OneRule {
        kind: kind as u8,
        left: left as u8,
        right: right as u8,
    })
}

// So many rules, into the columns of a table. They are gathered in columns of its own first: where each is stored through a lent one, reading
// 256 rules takes a tenth more time.
fn read_rule_list(
    reader: &mut Reader,
    count: u32,
    many: usize,
    kind: &mut [u8; 256],
    left: &mut [u8; 256],
    right: &mut [u8; 256],
) -> Result<(), Refusal>
    requires { (count ≤ 64) × (many ≤ 256) }
    ensures { Reads (λ _. RulesIn kind.new left.new right.new) (more_rules count many []) reader.old reader.new result }
{
    let mut kinds = [0u8; 256];
    let mut lefts = [0u8; 256];
    let mut rights = [0u8; 256];
    for i in 0..many {
        let rule = read_rule(reader, count)?;
        kinds[i] = rule.kind;
        lefts[i] = rule.left;
        rights[i] = rule.right;
    }
    *kind = kinds;
    *left = lefts;
    *right = rights;
    Ok(())
}

// All sections of a rule file, in order, into a table. It is lent, so that the table is built where it is handed back.
fn read_sections(reader: &mut Reader, rules: &mut Rules) -> Result<(), Refusal>
    ensures { Reads (λ _. StandsFor rules.new) rule_file reader.old reader.new result }
{
    let count = reader.number_between(1, 65, Condition::PathCount)?;
    let root = reader.number()?;
    read_paths(
        reader,
        count as usize,
        root,
        &mut rules.parent,
        &mut rules.label,
    )?;
    let many = reader.number()?;
    let required = read_required(reader, count, many)?;
    let listed = reader.number_between(0, 257, Condition::RuleCount)?;
    read_rule_list(
        reader,
        count,
        listed as usize,
        &mut rules.kind,
        &mut rules.left,
        &mut rules.right,
    )?;
    rules.paths = count as usize;
    rules.required = required;
    rules.rules = listed as usize;
    Ok(())
}

// The sections of a rule file, and nothing after them, into a table.
fn read_file(bytes: &[u8], rules: &mut Rules) -> Result<(), Refusal>
    ensures { MatchResult result
        (λ _. (q : _) × (at : _) × (run_all rule_file bytes.now ≡ got q at) × StandsFor rules.new q)
        (λ e. run_all rule_file bytes.now ≡ refused (condition_number e.condition) e.offset) }
{
    let mut reader = Reader::new(bytes);
    read_sections(&mut reader, rules)?;
    reader.end()
}

// The table of a refused file: one path, no required paths and no rules.
fn one_path_table() -> Rules
    ensures { result ≡ table_of no_rules }
{
    Rules {
        paths: 1,
        parent: [0; 64],
        label: [0; 64],
        required: 0,
        rules: 0,
        kind: [0; 256],
        left: [0; 256],
        right: [0; 256],
    }
}

// A rule file.
pub fn read_rules(bytes: &[u8]) -> Reading
    ensures { ReadRules bytes.now (reading result) }
{
    let mut reading = Reading {
        answer: Ok(()),
        rules: one_path_table(),
    };
    if let Err(refusal) = read_file(bytes, &mut reading.rules) {
        reading.answer = Err(refusal);
        reading.rules = one_path_table();
    }
    reading
}
