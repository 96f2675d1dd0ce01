// The whole text that the verdict program prints for the bytes of a rule file.
#![tactic(auto)]

ghost use Rattle.files.specs.Refusals.{condition_number};
ghost use Rattle.listing.specs.Lay.{LaysRefusal};
ghost use Rattle.reasoning.specs.Verdict.{verdict};
ghost use Rattle.printing.specs.Printing.{Decided, RulesToPrint, PrintsRules, Prints};

use files::read::read_rules;
use files::refusal::Refusal;
use files::rules::Rules;
use listing::lay::{Stage, lay, lay_refusal};
use reasoning::consistency::{Verdict, consistency};

// No document handed back takes more bytes.
const DOCUMENT: usize = 65536;

// No text takes more: four bytes for each of a document's, and a line.
pub const TEXT: usize = 4 * 65536 + 64;

// The line of a refusal.
fn print_refusal(refusal: Refusal, out: &mut [u8]) -> usize
    ensures { LaysRefusal (condition_number refusal.condition) refusal.offset out.old out.new result }
{
    lay_refusal(
        u64::from(refusal.condition.number()),
        refusal.offset as u64,
        out,
    )
}

// The text of a verdict, with the document or the evidence that it left.
fn print_verdict(
    rules: Rules,
    decided: Result<Verdict, Refusal>,
    document: &[u8],
    out: &mut [u8],
) -> usize
    requires { Decided rules (verdict decided) document.now out.old }
    ensures { PrintsRules rules out.old result out.new }
{
    match decided {
        Ok(Verdict::Consistent(n)) => lay(&document[..n], Stage::Count, out),
        Ok(Verdict::Inconsistent(n)) => lay(&document[..n], Stage::First, out),
        Err(refusal) => print_refusal(refusal, out),
    }
}

// The text of the rules of an accepted file.
fn print_rules(rules: Rules, out: &mut [u8]) -> usize
    requires { RulesToPrint rules out.old }
    ensures { PrintsRules rules out.old result out.new }
{
    let mut document = [0u8; DOCUMENT];
    let decided = consistency(rules, &mut document);
    print_verdict(rules, decided, &document, out)
}

// The text laid at the start of `out`, and its length; where `out` has less room than TEXT, nothing and 0.
pub fn print(file: &[u8], out: &mut [u8]) -> usize
    ensures { Prints file.now out.old result out.new }
{
    if out.len() < TEXT {
        return 0;
    }
    let reading = read_rules(file);
    match reading.answer {
        Ok(()) => print_rules(reading.rules, out),
        Err(refusal) => print_refusal(refusal, out),
    }
}
