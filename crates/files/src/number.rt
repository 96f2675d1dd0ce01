// Numbers in groups of seven bits, low group first, in at most two bytes.
ghost use Rattle.std.specs.Prelude.{◌+◌, ◌%◌, ◌^◌, IfOk, ◌≤◌, ◌<◌, ◌≡◌, length, drop};
ghost use Rattle.std.proofs.lemmas.List.Edits.{sets};
ghost use Rattle.files.specs.Number.{limit, bytes_of, number_in, two_bytes, begun};

use crate::refusal::Condition;

// A number that bytes begin with, and how many of them it takes.
#[derive(Clone, Copy, Debug, PartialEq, Eq)]
pub struct Number {
    pub value: u32,
    pub width: usize,
}

// A byte as an index.
pub fn wide(b: u8) -> usize
    ensures { (result ≡ b) × (result < 256) }
{
    usize::from(b)
}

// A number as an index.
pub fn wide_number(n: u32) -> usize
    ensures { result ≡ n }
{
    n as usize
}

// The second byte `high` of a number after the first, `low`, which says that another follows.
#[tactic(auto, using(crate::proofs::Numbers::two_laws))]
fn second(low: u32, high: u32) -> Result<Number, Condition>
    requires { high < 256 }
    ensures { begun result ≡ two_bytes low high }
{
    if high == 0 || 127 < high {
        return Err(Condition::TooLong);
    }
    Ok(Number {
        value: low % 128 + high * 128,
        width: 2,
    })
}

// The number at `at`: a `Reader` keeps the place from one number to the next, and stands on this.
pub fn read_number(s: &[u8], at: usize) -> Result<Number, Condition>
    ensures begun { begun result ≡ number_in (drop at s.now) }
    ensures fits { IfOk result (λ n. at + n.width < 2 ^ 64) }
{
    let low = u32::from(*s.get(at).ok_or(Condition::Cut)?);
    if low < 128 {
        return Ok(Number {
            value: low,
            width: 1,
        });
    }
    let high = u32::from(*s.get(at + 1).ok_or(Condition::Cut)?);
    second(low, high)
}

// How many bytes the number takes.
pub fn size_of(n: u32) -> usize
    ensures { (result ≡ length (bytes_of n)) × (result ≤ 2) }
{
    if n < 128 {
        return 1;
    }
    2
}

// The number's bytes stored from `at` on; the place after them. No struct holds `out` and `at`: it has one caller, which knows the room.
pub(crate) fn put_number(out: &mut [u8], at: usize, n: u32) -> usize
    requires { (n < limit) × (at + length (bytes_of n) ≤ length out.old) }
    ensures { (result ≡ at + length (bytes_of n)) × (out.new ≡ sets out.old at (bytes_of n)) }
{
    if n < 128 {
        out[at] = n as u8;
        return at + 1;
    }
    out[at] = (128 + n % 128) as u8;
    out[at + 1] = (n / 128) as u8;
    at + 2
}

// The bytes of the number modulo the limit stored from `at` on, as far as the buffer goes.
#[tactic(auto, using(crate::proofs::Stores::stored_laws))]
pub fn store_number(out: &mut [u8], at: usize, n: u32)
    ensures { out.new ≡ sets out.old at (bytes_of (n % limit)) }
{
    if at < out.len() {
        let v = n % 16384;
        if v < 128 {
            out[at] = v as u8;
            return;
        }
        out[at] = (128 + v % 128) as u8;
        let next = at + 1;
        if next < out.len() {
            out[next] = (v / 128) as u8;
        }
    }
}
