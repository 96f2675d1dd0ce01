// The calls over bytes for programs in C and Rust: each export is the call of its name in `entry`.
#![tactic(auto)]

ghost use Rattle.entry.specs.Calls.{Rewrites, Checks, Decides, Asks};

// Reads a rule file and writes it again: 1 and the length, or the refusal.
#[unsafe(no_mangle)]
pub extern "C" fn bozdurmek_rewrite(rules: &[u8], out: &mut [u8], answer: &mut [usize; 3])
    ensures { Rewrites rules.now out.old answer.new out.new }
{
    entry::bozdurmek_rewrite(rules, out, answer)
}

// Checks a document by a rule file: 1 obeys, 2 with the least broken rule and the least part, 3 with the least required path
// missing, or the refusal.
#[unsafe(no_mangle)]
pub extern "C" fn bozdurmek_check(rules: &[u8], document: &[u8], answer: &mut [usize; 3])
    ensures { Checks rules.now document.now answer.new }
{
    entry::bozdurmek_check(rules, document, answer)
}

// Decides whether a rule file is consistent: 1 and the witness's length, 2 and the evidence's, or the refusal.
#[unsafe(no_mangle)]
pub extern "C" fn bozdurmek_consistency(rules: &[u8], out: &mut [u8], answer: &mut [usize; 3])
    ensures { Decides rules.now out.old answer.new out.new }
{
    entry::bozdurmek_consistency(rules, out, answer)
}

// Asks a rule file a question: 1 yes and the evidence's length, 2 no and the counter-document's, or the refusal.
#[unsafe(no_mangle)]
pub extern "C" fn bozdurmek_ask(
    rules: &[u8],
    kind: usize,
    left: usize,
    right: usize,
    out: &mut [u8],
    answer: &mut [usize; 3],
)
    ensures { Asks rules.now kind left right out.old answer.new out.new }
{
    entry::bozdurmek_ask(rules, kind, left, right, out, answer)
}
