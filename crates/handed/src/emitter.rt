// Numbers emitted one after the other into a lent buffer, as far as it goes.
ghost use Rattle.std.specs.Prelude.{◌+◌, ◌^◌, ◌≤◌, ◌≡◌, [], ◌∷◌};
ghost use Rattle.handed.specs.Emitter.{Emits};

use files::number;

// The buffer, and how many bytes the numbers emitted so far take, which may be more than it holds.
#[derive(Drop)]
pub(crate) struct Emitter<'a> {
    out: &'a mut [u8],
    at: usize,
}

impl<'a> Emitter<'a> {
    pub(crate) fn new(out: &'a mut [u8]) -> Emitter<'a>
        ensures same_reference { result.out.ghost_name ≡ out.entry.ghost_name }
        ensures out { result.out.now ≡ out.old }
        ensures at { result.at ≡ 0 }
    {
        Emitter { out, at: 0 }
    }

    // How many bytes the numbers emitted so far take.
    pub(crate) fn size(&self) -> usize
        ensures { result ≡ self.now.at }
    {
        self.at
    }

    pub(crate) fn emit(&mut self, n: usize)
        requires { self.old.at + 2 ≤ 2 ^ 30 }
        ensures { Emits (n ∷ []) 2 self.old self.new }
    {
        let v = (n % 16384) as u32;
        number::store_number(self.out, self.at, v);
        self.at += number::size_of(v);
    }
}
