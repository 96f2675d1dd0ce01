// Whether rules are consistent with the required paths.
ghost use Rattle.std.specs.Prelude.{◌≡◌, Some};
ghost use Rattle.evidence.specs.Grounds.{InRange, ground_numbers};
ghost use Rattle.handed.specs.Writer.{document_in};
ghost use Rattle.reasoning.specs.Calls.{DecidesConsistency};
ghost use Rattle.reasoning.specs.Lent.{Passed, Told};
ghost use Rattle.reasoning.specs.Verdict.{Consistent, Inconsistent, Refused, verdict};

use arrayvec::ArrayVec;
use evidence::choose::clashing;
use evidence::collect::put_ground;
use evidence::decide::conflict;
use evidence::ground::Ground;
use files::refusal::{Condition, Refusal};
use files::rules::{Rules, parents};
use files::sets;
use files::valid::valid_table;
use files::write::put_numbers;
use handed::document::write_document;
use reachable::grow::sheet_of;
use reachable::sheet::Sheet;

// Consistent with a document of so many bytes, or inconsistent with evidence of so many bytes.
#[derive(Clone, Copy, Debug, PartialEq, Eq)]
pub enum Verdict {
    Consistent(usize),
    Inconsistent(usize),
}

// A consistent set: its witness is put into the buffer.
fn put_witness(sheet: &Sheet, needed: u64, out: &mut [u8]) -> Result<Verdict, Refusal>
    ensures { Told Consistent Refused (document_in sheet.now needed 0) out.old (verdict result) out.new }
{
    Ok(Verdict::Consistent(write_document(sheet, needed, 0, out)?))
}

// An inconsistent set: its evidence is put into the buffer.
fn put_conflict(sheet: &Sheet, ground: Ground, out: &mut [u8]) -> Result<Verdict, Refusal>
    requires { InRange (Some ground) }
    ensures { Told Inconsistent Refused (ground_numbers sheet.now (Some ground)) out.old (verdict result) out.new }
{
    let mut numbers = ArrayVec::new();
    put_ground(sheet, Some(ground), &mut numbers);
    Ok(Verdict::Inconsistent(put_numbers(numbers.as_slice(), out)?))
}

// The verdict on a table that passed its test, with its parents.
fn decide(rules: Rules, parent: &[u8; 64], out: &mut [u8]) -> Result<Verdict, Refusal>
    requires { Passed rules parent.now }
    ensures { DecidesConsistency rules out.old (verdict result) out.new }
{
    let mut table = rules;
    table.parent = *parent;
    let sheet = sheet_of(&table);
    let needed = sets::with(rules.required, 0);
    match conflict(&sheet, clashing(&sheet), needed) {
        Some(ground) => put_conflict(&sheet, ground, out),
        None => put_witness(&sheet, needed, out),
    }
}

// Whether the rules are consistent with the required paths: a witness or the evidence is put into the buffer.
pub fn consistency(rules: Rules, out: &mut [u8]) -> Result<Verdict, Refusal>
    ensures { DecidesConsistency rules out.old (verdict result) out.new }
{
    if !valid_table(rules) {
        return Err(Condition::Table.at(0));
    }
    let parent = parents(&rules.parent, rules.paths);
    decide(rules, &parent, out)
}
