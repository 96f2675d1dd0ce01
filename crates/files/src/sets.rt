// Sets of paths as 64-bit words: path x is in the set where bit x is 1. Each function answers for every word and every number.
ghost use Rattle.std.specs.Prelude.{◌≡◌};
ghost use Rattle.files.specs.Sets.{hasb, with_path, without_path, union, common, difference, below_all, lowest, without_lowest, size, size_below, UpTo64};

// Whether path x is in the set.
pub fn has(w: u64, x: usize) -> bool
    ensures { result ≡ hasb w x }
{
    if x < 64 { (w >> x) % 2 == 1 } else { false }
}

// The set with path x too; a number past the 64 paths changes nothing.
pub fn with(w: u64, x: usize) -> u64
    ensures { result ≡ with_path w x }
{
    if x < 64 { w | (1u64 << x) } else { w }
}

// The set without path x.
pub fn without(w: u64, x: usize) -> u64
    ensures { result ≡ without_path w x }
{
    if x < 64 { w - (w & (1u64 << x)) } else { w }
}

// The paths in one of the two sets.
pub fn union(a: u64, b: u64) -> u64
    ensures { result ≡ union a b }
{
    a | b
}

// The paths in both sets.
pub fn common(a: u64, b: u64) -> u64
    ensures { result ≡ common a b }
{
    a & b
}

// The paths in the first set and not in the second.
pub fn difference(a: u64, b: u64) -> u64
    ensures { result ≡ difference a b }
{
    a - (a & b)
}

// The paths below x, of the 64.
pub fn below(x: usize) -> u64
    ensures { result ≡ below_all x }
{
    if x < 64 {
        (1u64 << x) - 1
    } else {
        0xffff_ffff_ffff_ffff
    }
}

// The least path in the set, 64 if there is none.
pub fn lowest(w: u64) -> usize
    ensures { UpTo64 (lowest w) result }
{
    u64::trailing_zeros(w) as usize
}

// The set without its least path.
pub fn without_lowest(w: u64) -> u64
    ensures { result ≡ without_lowest w }
{
    if w == 0 { 0 } else { w & (w - 1) }
}

// How many paths are in the set.
pub fn size(w: u64) -> usize
    ensures { UpTo64 (size w) result }
{
    u64::count_ones(w) as usize
}

// How many paths of the set are below x.
pub fn size_below(w: u64, x: usize) -> usize
    ensures { UpTo64 (size_below w x) result }
{
    u64::count_ones(w & below(x)) as usize
}
