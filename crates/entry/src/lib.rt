// The calls over bytes; `entry_c` exports them to programs in C and Rust. Each takes the bytes of a rule file, lays its answer
// in three numbers and, where it writes, puts its bytes into the lent buffer. Kinds and refusals are numbers, as C has them.
#![tactic(auto)]

ghost use Rattle.entry.specs.Calls.{Rewrites, Checks, Decides, Asks};

use documents::check::check_document;
use files::read::read_rules;
use files::write::write_rules;
use numbers::{decided, judged, refusal, replied, written};
use reasoning::consistency::consistency;
use reasoning::question::ask;

mod numbers;

// Reads a rule file and writes it again: 1 and the length, or the refusal.
pub fn bozdurmek_rewrite(rules: &[u8], out: &mut [u8], answer: &mut [usize; 3])
    ensures { Rewrites rules.now out.old answer.new out.new }
{
    let reading = read_rules(rules);
    *answer = match reading.answer {
        Ok(()) => written(write_rules(reading.rules, out)),
        Err(refused) => refusal(refused),
    };
}

// Checks a document by a rule file: 1 obeys, 2 with the least broken rule and the least part, 3 with the least required path
// missing, or the refusal.
pub fn bozdurmek_check(rules: &[u8], document: &[u8], answer: &mut [usize; 3])
    ensures { Checks rules.now document.now answer.new }
{
    let reading = read_rules(rules);
    *answer = match reading.answer {
        Ok(()) => judged(check_document(reading.rules, document)),
        Err(refused) => refusal(refused),
    };
}

// Decides whether a rule file is consistent: 1 and the witness's length, 2 and the evidence's, or the refusal.
pub fn bozdurmek_consistency(rules: &[u8], out: &mut [u8], answer: &mut [usize; 3])
    ensures { Decides rules.now out.old answer.new out.new }
{
    let reading = read_rules(rules);
    *answer = match reading.answer {
        Ok(()) => decided(consistency(reading.rules, out)),
        Err(refused) => refusal(refused),
    };
}

// Asks a rule file a question: 1 yes and the evidence's length, 2 no and the counter-document's, or the refusal.
pub fn bozdurmek_ask(
    rules: &[u8],
    kind: usize,
    left: usize,
    right: usize,
    out: &mut [u8],
    answer: &mut [usize; 3],
)
    ensures { Asks rules.now kind left right out.old answer.new out.new }
{
    let reading = read_rules(rules);
    *answer = match reading.answer {
        Ok(()) => replied(ask(reading.rules, kind, left, right, out)),
        Err(refused) => refusal(refused),
    };
}
