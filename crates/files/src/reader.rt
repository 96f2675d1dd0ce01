// Bytes read number by number: each number is tested as soon as it is read.
ghost use Rattle.std.specs.Prelude.{ℕ, ◌+◌, ◌≤◌, ◌<◌, ◌≡◌, MatchResult, IfOk, length};
ghost use Rattle.files.specs.declared.refusal.Condition.{Condition};
ghost use Rattle.files.specs.Number.{limit};
ghost use Rattle.files.specs.Format.{want, done};
ghost use Rattle.files.specs.RuleFile.{any, between};
ghost use Rattle.files.specs.Refusals.{condition_number, test_number};
ghost use Rattle.files.specs.Readers.{Same, Reads};

use crate::number::read_number;
use crate::refusal::{Condition, Refusal};

// Bytes, and the place of the number that is read next.
#[derive(Debug, Drop)]
pub struct Reader<'a> {
    pub bytes: &'a [u8],
    pub at: usize,
}

// The test of a number that stands from `low` up to and without `past`.
#[tactic(auto, using(crate::proofs::PathTests::between_laws))]
fn between(low: u32, past: u32, condition: Condition, n: u32) -> Result<(), Condition>
    ensures { test_number result ≡ between low past (condition_number condition) n }
{
    if low <= n && n < past {
        return Ok(());
    }
    Err(condition)
}

impl<'a> Reader<'a> {
    pub fn new(bytes: &'a [u8]) -> Self
        ensures bytes { result.bytes.now ≡ bytes.now }
        ensures start { result.at ≡ 0 }
    {
        Reader { bytes, at: 0 }
    }

    // The next number, whatever it is.
    pub fn number(&mut self) -> Result<u32, Refusal>
        ensures { Reads Same (want any done) self.old self.new result }
    {
        match read_number(self.bytes, self.at) {
            Ok(number) => {
                self.at += number.width;
                Ok(number.value)
            }
            Err(condition) => Err(condition.at(self.at)),
        }
    }

    // The next number, which has to pass a test.
    pub fn tested<F: FnOnce(u32) -> Result<(), Condition>>(
        &mut self,
        test: F,
    ) -> Result<u32, Refusal>
        requires { F.IsAlwaysCallable test }
        ensures { (t : ℕ → ℕ) → ((n : ℕ) (r : _) → n < limit → F.post test n r → test_number r ≡ t n) → Reads Same (want t done) self.old self.new result }
    {
        let at = self.at;
        let number = self.number()?;
        match test(number) {
            Ok(()) => Ok(number),
            Err(condition) => Err(condition.at(at)),
        }
    }

    // The next number, which has to stand from `low` up to and without `past`.
    pub fn number_between(
        &mut self,
        low: u32,
        past: u32,
        condition: Condition,
    ) -> Result<u32, Refusal>
        ensures reads { Reads Same (want (between low past (condition_number condition)) done) self.old self.new result }
        ensures within { IfOk result (λ n. (low ≤ n) × (n < past)) }
    {
        self.tested(|n| between(low, past, condition, n))
    }

    // Nothing may be left.
    pub fn end(&self) -> Result<(), Refusal>
        ensures { MatchResult result
            (λ _. length self.now.bytes.now ≤ self.now.at)
            (λ e. (self.now.at < length self.now.bytes.now) × (e ≡ record { condition = Condition.LeftOver; offset = self.now.at })) }
    {
        if self.at < self.bytes.len() {
            return Err(Condition::LeftOver.at(self.at));
        }
        Ok(())
    }
}
