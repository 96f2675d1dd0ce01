// Questions to the rules.
ghost use Rattle.std.specs.Prelude.{◌<◌, ◌≡◌, ◌++◌, true, false, MatchOption};
ghost use Rattle.files.specs.Kinds.{kind_number};
ghost use Rattle.evidence.specs.Grounds.{InRange, ground_numbers};
ghost use Rattle.reasoning.specs.Calls.{askable, AnswersQuestion};
ghost use Rattle.reasoning.specs.Lent.{Told, counter_on, counter_numbers, LentQuestion, PassedQuestion};
ghost use Rattle.reasoning.specs.Reply.{Yes, No, Refused, reply};

use arrayvec::ArrayVec;
use evidence::choose::clashing;
use evidence::collect::put_both;
use evidence::decide::{grounds, is_direct};
use evidence::ground::{Both, Ground, yes};
use files::kind::Kind;
use files::refusal::{Condition, Refusal};
use files::rules::{Rules, parents};
use files::sets;
use files::valid::valid_table;
use files::write::put_numbers;
use handed::document::write_document;
use reachable::lay::lay;
use reachable::sheet::Sheet;

// Yes with evidence of so many bytes, or no with a counter-document of so many bytes.
#[derive(Clone, Copy, Debug, PartialEq, Eq)]
pub enum Reply {
    Yes(usize),
    No(usize),
}

// A yes: its evidence is put into the buffer. As `put_conflict`, of another answer's type.
fn put_yes(sheet: &Sheet, b: Both, out: &mut [u8]) -> Result<Reply, Refusal>
    requires { InRange b.first × InRange b.second }
    ensures { Told Yes Refused (ground_numbers sheet.now b.first ++ ground_numbers sheet.now b.second) out.old (reply result) out.new }
{
    let mut numbers = ArrayVec::new();
    put_both(sheet, b, &mut numbers);
    Ok(Reply::Yes(put_numbers(numbers.as_slice(), out)?))
}

// A question: its kind and its two paths.
#[derive(Clone, Copy)]
struct Question {
    kind: Kind,
    first: usize,
    second: usize,
}

// The question, if it can be asked of the table.
#[tactic(auto, unfolding(crate::specs::Calls::askable))]
fn asked(rules: &Rules, kind: usize, left: usize, right: usize) -> Option<Question>
    ensures { MatchOption result (askable rules.now kind left right ≡ false) (λ c. (askable rules.now kind left right ≡ true) × (kind ≡ kind_number c.kind) × (left ≡ c.first) × (right ≡ c.second)) }
{
    match Kind::try_from(kind) {
        Ok(kind) if left < rules.paths && right < rules.paths => Some(Question {
            kind,
            first: left,
            second: right,
        }),
        _ => None,
    }
}

// What a counter-document begins with: the goals of its part 0, and their context.
#[derive(Clone, Copy)]
struct Begins {
    goals: u64,
    top: usize,
}

// What the counter-document begins with, by the question's kind; of a co-occurrence it shows the first failing direction, the second
// one if the first holds.
#[tactic(auto, unfolding(crate::specs::Lent::counter_on))]
fn counter(sheet: &Sheet, c: Question, holds: bool) -> Begins
    requires { (c.first < 64) × (c.second < 64) }
    ensures { (result ≡ counter_on sheet.now (kind_number c.kind) c.first c.second holds) × (result.top < 64) }
{
    let (p, q) = (c.first, c.second);
    match c.kind {
        Kind::Absence => Begins {
            goals: sets::with(sets::with(0, q), p),
            top: sheet.context(p, q),
        },
        Kind::CoOccurrence if holds => Begins {
            goals: sets::with(0, q),
            top: q,
        },
        _ => Begins {
            goals: sets::with(0, p),
            top: p,
        },
    }
}

// A no: its counter-document is put into the buffer. As `put_witness`, of another answer's type.
fn put_no(sheet: &Sheet, c: Question, holds: bool, out: &mut [u8]) -> Result<Reply, Refusal>
    requires { (c.first < 64) × (c.second < 64) }
    ensures { Told No Refused (counter_numbers sheet.now (kind_number c.kind) c.first c.second holds) out.old (reply result) out.new }
{
    let b = counter(sheet, c, holds);
    Ok(Reply::No(write_document(sheet, b.goals, b.top, out)?))
}

// The reply by the grounds of the question, once all sets are grown.
fn settle(
    rules: Rules,
    parent: &[u8; 64],
    sheet: &Sheet,
    c: Question,
    out: &mut [u8],
) -> Result<Reply, Refusal>
    requires { LentQuestion rules parent.now sheet.now (kind_number c.kind) c.first c.second }
    ensures { AnswersQuestion rules (kind_number c.kind) c.first c.second out.old (reply result) out.new }
{
    let b = grounds(sheet, clashing(sheet), c.kind, c.first, c.second);
    if yes(c.kind, b) {
        return put_yes(sheet, b, out);
    }
    put_no(sheet, c, b.first.is_some(), out)
}

// The reply to a question that can be asked, of a table that passed its test. Where an implication is direct no set is grown.
fn answer(rules: Rules, parent: &[u8; 64], c: Question, out: &mut [u8]) -> Result<Reply, Refusal>
    requires { PassedQuestion rules parent.now (kind_number c.kind) c.first c.second }
    ensures { AnswersQuestion rules (kind_number c.kind) c.first c.second out.old (reply result) out.new }
{
    let mut table = rules;
    table.parent = *parent;
    let mut sheet = lay(&table);
    if c.kind == Kind::Implication && is_direct(&sheet, c.first, c.second) {
        let first = Some(Ground::Direct(c.first, c.second));
        return put_yes(
            &sheet,
            Both {
                first,
                second: None,
            },
            out,
        );
    }
    sheet.grow(rules.paths);
    settle(rules, parent, &sheet, c, out)
}

// Whether every document that obeys the rules obeys the question: evidence or a counter-document is put into the buffer. The kind is a
// number: one that no kind has is refused with 13.
pub fn ask(
    rules: Rules,
    kind: usize,
    left: usize,
    right: usize,
    out: &mut [u8],
) -> Result<Reply, Refusal>
    ensures { AnswersQuestion rules kind left right out.old (reply result) out.new }
{
    if !valid_table(rules) {
        return Err(Condition::Table.at(0));
    }
    let Some(c) = asked(&rules, kind, left, right) else {
        return Err(Condition::Question.at(0));
    };
    let parent = parents(&rules.parent, rules.paths);
    answer(rules, &parent, c, out)
}
