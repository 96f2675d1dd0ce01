// The three numbers of each answer.
ghost use Rattle.std.specs.Prelude.{◌≡◌};
ghost use Rattle.files.specs.Refusals.{condition_number};
ghost use Rattle.files.specs.Writing.{written_answer};
ghost use Rattle.documents.specs.Answers.{checked};
ghost use Rattle.reasoning.specs.Verdict.{verdict};
ghost use Rattle.reasoning.specs.Reply.{reply};
ghost use Rattle.entry.specs.Numbers.{refusal_numbers, written_numbers, checked_numbers, verdict_numbers, reply_numbers};

use documents::check::Checked;
use files::refusal::Refusal;
use reasoning::consistency::Verdict;
use reasoning::question::Reply;

// 0, the refusal's number and its offset.
pub fn refusal(refused: Refusal) -> [usize; 3]
    ensures { result ≡ refusal_numbers (condition_number refused.condition) refused.offset }
{
    [0, usize::from(refused.condition.number()), refused.offset]
}

// Writing: 1 and the length, or the refusal.
pub fn written(answer: Result<usize, Refusal>) -> [usize; 3]
    ensures { result ≡ written_numbers (written_answer answer) }
{
    match answer {
        Ok(n) => [1, n, 0],
        Err(refused) => refusal(refused),
    }
}

// Checking: 1 obeys; 2, the broken rule and the part; 3 and the path missing; or the refusal.
pub fn judged(answer: Result<Checked, Refusal>) -> [usize; 3]
    ensures { result ≡ checked_numbers (checked answer) }
{
    match answer {
        Ok(Checked::Obeys) => [1, 0, 0],
        Ok(Checked::Broken(rule, part)) => [2, rule, part],
        Ok(Checked::Missing(path)) => [3, path, 0],
        Err(refused) => refusal(refused),
    }
}

// Consistency: 1 consistent, 2 inconsistent, with the length; or the refusal.
pub fn decided(answer: Result<Verdict, Refusal>) -> [usize; 3]
    ensures { result ≡ verdict_numbers (verdict answer) }
{
    match answer {
        Ok(Verdict::Consistent(n)) => [1, n, 0],
        Ok(Verdict::Inconsistent(n)) => [2, n, 0],
        Err(refused) => refusal(refused),
    }
}

// A question: 1 yes, 2 no, with the length; or the refusal.
pub fn replied(answer: Result<Reply, Refusal>) -> [usize; 3]
    ensures { result ≡ reply_numbers (reply answer) }
{
    match answer {
        Ok(Reply::Yes(n)) => [1, n, 0],
        Ok(Reply::No(n)) => [2, n, 0],
        Err(refused) => refusal(refused),
    }
}
