// Writing a rule file into a lent buffer.
ghost use Rattle.std.specs.Prelude.{◌+◌, ◌*◌, ◌≤◌, ◌<◌, ◌≡◌, ◌++◌, [], length};
ghost use Rattle.std.proofs.lemmas.List.Edits.{sets};
ghost use Rattle.files.specs.Number.{bytes_of_all};
ghost use Rattle.files.specs.RuleFile.{numbers_of};
ghost use Rattle.files.specs.Rules.{rules_of};
ghost use Rattle.files.specs.Writing.{put, wrapped, path_section, required_section, rule_section, written_answer, Puts, WriteRules};

use crate::members::Members;
use crate::number::{put_number, size_of};
use crate::refusal::{Condition, Refusal};
use crate::rules::Rules;
use crate::sets;
use crate::valid::valid_table;
use arrayvec::ArrayVec;

// As many as a table gives: 128 for the paths, 65 for those required, 769 for the rules.
const NUMBERS: usize = 962;

// How many bytes the numbers take.
fn size_of_all(numbers: &[u32]) -> usize
    ensures { result ≡ length (bytes_of_all (wrapped numbers.now)) }
{
    let mut size = 0usize;
    for n in numbers {
        size += size_of(*n % 16384);
    }
    size
}

// The numbers' bytes stored at the start of `out`, which has room for them.
fn store_all(numbers: &[u32], out: &mut [u8])
    requires { length (bytes_of_all (wrapped numbers.now)) ≤ length out.old }
    ensures { out.new ≡ sets out.old 0 (bytes_of_all (wrapped numbers.now)) }
{
    let mut at = 0usize;
    for n in numbers {
        at = put_number(out, at, *n % 16384);
    }
}

// The numbers' bytes put into `out`, and how many they are; where they are longer than it, none.
#[tactic(auto, using(crate::proofs::Stores::puts_laws))]
pub fn put_numbers(numbers: &[u32], out: &mut [u8]) -> Result<usize, Refusal>
    ensures { Puts (put (bytes_of_all (wrapped numbers.now)) out.old) (written_answer result) out.new }
{
    let size = size_of_all(numbers);
    if out.len() < size {
        return Err(Condition::Room.at(0));
    }
    store_all(numbers, out);
    Ok(size)
}

// Path count, root label, parents and labels, as the first numbers.
fn collect_paths(rules: &Rules, numbers: &mut ArrayVec<u32, NUMBERS>)
    requires { (1 ≤ rules.now.paths) × (rules.now.paths ≤ 64) × (numbers.old.items ≡ []) }
    ensures { numbers.new.items ≡ path_section rules.now.parent rules.now.label rules.now.paths }
{
    numbers.push(rules.paths as u32);
    numbers.push(rules.label[0]);
    for x in 1..rules.paths {
        numbers.push(u32::from(rules.parent[x]));
        numbers.push(rules.label[x]);
    }
}

// Required count and required paths after the numbers that are there.
fn collect_required(required: u64, numbers: &mut ArrayVec<u32, NUMBERS>)
    requires { length numbers.old.items ≤ 128 }
    ensures { numbers.new.items ≡ numbers.old.items ++ required_section required }
{
    numbers.push(sets::size(required) as u32);
    for x in Members(required) {
        numbers.push(x as u32);
    }
}

// Rule count and rules after the numbers that are there.
fn collect_rules(rules: &Rules, numbers: &mut ArrayVec<u32, NUMBERS>)
    requires { (rules.now.rules ≤ 256) × (length numbers.old.items ≤ 193) }
    ensures { numbers.new.items ≡ numbers.old.items ++ rule_section rules.now.kind rules.now.left rules.now.right rules.now.rules }
{
    numbers.push(rules.rules as u32);
    for x in 0..rules.rules {
        numbers.push(u32::from(rules.kind[x]));
        numbers.push(u32::from(rules.left[x]));
        numbers.push(u32::from(rules.right[x]));
    }
}

// The numbers of the rule file.
fn collect(rules: &Rules) -> ArrayVec<u32, NUMBERS>
    requires { (1 ≤ rules.now.paths) × (rules.now.paths ≤ 64) × (rules.now.rules ≤ 256) }
    ensures { result.items ≡ numbers_of (rules_of rules.now) }
{
    let mut numbers = ArrayVec::new();
    collect_paths(rules, &mut numbers);
    collect_required(rules.required, &mut numbers);
    collect_rules(rules, &mut numbers);
    numbers
}

// The rule file of a table put into `out`, and its length: a table that is not valid is refused first, then want of room.
#[tactic(auto, using(crate::proofs::Writer::write_laws))]
pub fn write_rules(rules: Rules, out: &mut [u8]) -> Result<usize, Refusal>
    ensures { WriteRules rules out.old (written_answer result) out.new }
{
    if !valid_table(rules) {
        return Err(Condition::Table.at(0));
    }
    put_numbers(collect(&rules).as_slice(), out)
}
