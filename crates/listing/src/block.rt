// A lent block that is filled with text from its start.
ghost use Rattle.std.specs.Prelude.{◌+◌, ◌-◌, ◌≤◌, ◌≡◌, true, [], ◌∷◌, ◌++◌, length};
ghost use Rattle.listing.specs.Text.{digits, spaced, feed};
ghost use Rattle.listing.specs.Block.{Writes};

use itoa::Buffer;

// The block, and how many bytes of it are filled.
#[derive(Drop)]
pub(crate) struct Block<'a> {
    out: &'a mut [u8],
    filled: usize,
}

impl<'a> Block<'a> {
    pub(crate) fn new(out: &'a mut [u8]) -> Block<'a>
        ensures same_reference { result.out.ghost_name ≡ out.entry.ghost_name }
        ensures out { result.out.now ≡ out.old }
        ensures filled { result.filled ≡ 0 }
    {
        Block { out, filled: 0 }
    }

    pub(crate) fn filled(&self) -> usize
        ensures { result ≡ self.now.filled }
    {
        self.filled
    }

    // How many bytes are left.
    pub(crate) fn room(&self) -> usize
        requires { self.now.filled ≤ length self.now.out.now }
        ensures { result ≡ length self.now.out.now - self.now.filled }
    {
        self.out.len() - self.filled
    }

    pub(crate) fn put(&mut self, text: &[u8])
        requires { self.old.filled + length text.now ≤ length self.old.out.now }
        ensures { Writes text.now self.old self.new }
    {
        let end = self.filled + text.len();
        self.out[self.filled..end].copy_from_slice(text);
        self.filled = end;
    }

    // The digits of a number.
    pub(crate) fn put_number(&mut self, n: u64)
        requires { self.old.filled + 20 ≤ length self.old.out.now }
        ensures { Writes (digits n) self.old self.new }
    {
        let mut buffer = Buffer::new();
        self.put(buffer.format(n).as_bytes());
    }

    // A space and the digits of a number.
    pub(crate) fn put_spaced(&mut self, n: u64)
        requires { self.old.filled + 21 ≤ length self.old.out.now }
        ensures { Writes (spaced (n ∷ [])) self.old self.new }
    {
        self.put(b" ");
        self.put_number(n);
    }

    // A line feed where it is asked for.
    pub(crate) fn put_feed(&mut self, wanted: bool)
        requires { self.old.filled + 1 ≤ length self.old.out.now }
        ensures { Writes (feed wanted) self.old self.new }
    {
        if wanted {
            self.put(b"\n");
        }
    }

    // A number after a space, and a line feed where it is asked for.
    pub(crate) fn put_last(&mut self, n: u64, ends: bool)
        requires { self.old.filled + 22 ≤ length self.old.out.now }
        ensures { Writes (spaced (n ∷ []) ++ feed ends) self.old self.new }
    {
        self.put_spaced(n);
        self.put_feed(ends);
    }
}
