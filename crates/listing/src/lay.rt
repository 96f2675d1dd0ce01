// Numbers of a document or of evidence laid out as text, as much of it as a lent block takes, and the line of a refusal.
ghost use Rattle.std.specs.Prelude.{◌+◌, ◌≤◌, ◌≡◌, length};
ghost use Rattle.listing.specs.Text.{Stored};
ghost use Rattle.listing.specs.Block.{Writes};
ghost use Rattle.listing.specs.Lay.{piece_text, next_part, place_after, laid_text, LaysRefusal};

use crate::block::Block;
use files::number::read_number;

// No number's text takes more bytes.
const PIECE: usize = 48;

// Nor does the line of a refusal.
const REFUSAL: usize = 64;

// What the next number is: the part count, a part's path, its child count, a child; or the first number of evidence, or a
// further one. A parameter of `lay`, and what `laid_text` goes by.
#[derive(Clone, Copy, Debug, PartialEq, Eq)]
pub enum Stage {
    Count,
    Path,
    Children,
    Child,
    First,
    More,
}

// Where the text goes on: the place of the next number among the bytes and what it is, the number of its part, and how many
// children are left.
#[derive(Clone, Copy, Debug, PartialEq, Eq)]
struct Place {
    at: usize,
    stage: Stage,
    part: u64,
    left: u64,
}

impl Place {
    // The place of the first number, which is of this stage.
    fn first(stage: Stage) -> Place
        ensures { result ≡ record { at = 0; stage = stage; part = 0; left = 0 } }
    {
        Place {
            at: 0,
            stage,
            part: 0,
            left: 0,
        }
    }

    // The text of the number x here; `last`: no number follows it.
    fn put(self, x: u64, last: bool, block: &mut Block)
        requires { block.old.filled + 48 ≤ length block.old.out.now }
        ensures { Writes (piece_text self.stage self.part self.left last x) block.old block.new }
    {
        match self.stage {
            Stage::Count => {
                block.put(b"consistent");
                block.put_last(x, true);
            }
            Stage::Path => {
                block.put_number(self.part);
                block.put_spaced(x);
            }
            Stage::Children => block.put_feed(x == 0),
            Stage::Child => block.put_last(x, self.left <= 1),
            Stage::First => {
                block.put(b"inconsistent");
                block.put_last(x, last);
            }
            Stage::More => block.put_last(x, last),
        }
    }

    // The place at `next` of the same part, with what is to come.
    fn on(self, next: usize, stage: Stage, left: u64) -> Place
        ensures { result ≡ record { at = next; stage = stage; part = self.part; left = left } }
    {
        Place {
            at: next,
            stage,
            part: self.part,
            left,
        }
    }

    // The place after a part's line.
    #[tactic(auto, unfolding(crate::specs::Lay::next_part))]
    fn next_part(self, next: usize) -> Place
        ensures { result ≡ next_part next self.part }
    {
        Place {
            at: next,
            stage: Stage::Path,
            part: self.part % 65536 + 1,
            left: 0,
        }
    }

    // The place after the number x; the next number stands at `next`.
    #[tactic(auto, unfolding(crate::specs::Lay::place_after))]
    fn after(self, x: u64, next: usize) -> Place
        ensures { result ≡ place_after self.stage next self.part self.left x }
    {
        let start = Place::first(Stage::Count);
        match self.stage {
            Stage::Count => start.on(next, Stage::Path, 0),
            Stage::Path => self.on(next, Stage::Children, 0),
            Stage::Children if x == 0 => self.next_part(next),
            Stage::Children => self.on(next, Stage::Child, x),
            Stage::Child if self.left <= 1 => self.next_part(next),
            Stage::Child => self.on(next, Stage::Child, self.left - 1),
            Stage::First | Stage::More => start.on(next, Stage::More, 0),
        }
    }
}

// The numbers of a document or of evidence, of which the first is of this stage, laid out at the start of the block, and how
// many bytes that took: as many numbers as have 48 bytes of room before them.
pub fn lay(bytes: &[u8], stage: Stage, out: &mut [u8]) -> usize
    ensures { Stored (laid_text bytes.now stage out.old) out.old 0 out.new result }
{
    let mut block = Block::new(out);
    let mut place = Place::first(stage);
    while PIECE <= block.room() {
        match read_number(bytes, place.at) {
            Ok(number) => {
                let x = u64::from(number.value);
                let next = place.at + number.width;
                place.put(x, bytes.len() <= next, &mut block);
                place = place.after(x, next);
            }
            Err(_) => break,
        }
    }
    block.filled()
}

// The line of a refusal laid out at the start of the block, and its length; nothing where there is less room than 64 bytes. By numbers: its
// contract is of any two.
pub fn lay_refusal(number: u64, offset: u64, out: &mut [u8]) -> usize
    ensures { LaysRefusal number offset out.old out.new result }
{
    if out.len() < REFUSAL {
        return 0;
    }
    let mut block = Block::new(out);
    block.put(b"refused");
    block.put_spaced(number);
    block.put_last(offset, true);
    block.filled()
}
