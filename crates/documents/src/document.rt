// Reading a document's part list: every number is tested as soon as it is read.
ghost use Rattle.std.specs.Prelude.{◌+◌, ◌≤◌, ◌<◌, ◌≡◌, MatchResult, [], get_or};
ghost use Rattle.files.specs.RuleFile.{more_ascending};
ghost use Rattle.files.specs.Format.{run_all, got, refused};
ghost use Rattle.files.specs.Refusals.{condition_number, test_number};
ghost use Rattle.files.specs.Readers.{Reads};
ghost use Rattle.documents.specs.PartList.{part_limit, named_test, path_test, part_at, more_parts, document_file};
ghost use Rattle.documents.specs.Reading.{parent_at, KidsAre, PartIs, PartsAre, DocumentIs};

use crate::context::parent_of;
use files::reader::Reader;
use files::refusal::{Condition, Refusal};
use files::sets;

// How many parts a document may have.
pub const PARTS: usize = 512;

// How many paths a table has, and the parent of each.
#[derive(Clone, Copy)]
pub(crate) struct Paths {
    pub count: u32,
    pub parent: [u8; 64],
}

// A part's path, and where its child count stands.
#[derive(Clone, Copy)]
struct OnePart {
    path: u8,
    place: usize,
}

// The parts that were read: how many, their paths, and where their child counts stand; two columns, as `Laid` speaks of each.
#[derive(Clone, Copy)]
pub(crate) struct Parts {
    pub count: usize,
    pub path: [u8; PARTS],
    pub place: [usize; PARTS],
}

// The test of the path of a part after 0, with the set of its namers' paths.
#[tactic(auto, using(crate::proofs::PartReader::named_laws))]
fn named_test(paths: &Paths, namers: u64, path: u8) -> Result<(), Condition>
    ensures { test_number result ≡ named_test (parent_at paths.now.parent) namers path }
{
    if namers == 0 {
        return Err(Condition::Unnamed);
    }
    if path != 0 && namers == sets::with(0, usize::from(parent_of(&paths.parent, path))) {
        return Ok(());
    }
    Err(Condition::NamerPath)
}

// The test of the path of part n, with the set of its namers' paths.
#[tactic(auto, using(crate::proofs::PartReader::path_laws))]
fn path_test(paths: &Paths, n: usize, namers: u64, path: u32) -> Result<(), Condition>
    requires { paths.now.count ≤ 64 }
    ensures { test_number result ≡ path_test (parent_at paths.now.parent) paths.now.count n namers path }
{
    if n == 0 && path == 0 {
        return Ok(());
    }
    if n == 0 || paths.count <= path {
        return Err(Condition::PartPath);
    }
    named_test(paths, namers, path as u8)
}

// So many children of part n, which is on a path; each gets the path among its namers' paths.
fn read_kids(
    reader: &mut Reader,
    parts: u32,
    n: u32,
    path: u8,
    many: u32,
    namers: &mut [u64; PARTS],
) -> Result<(), Refusal>
    requires { (parts ≤ part_limit) × (n < part_limit) }
    ensures { Reads (KidsAre reader.old many path namers.old namers.new) (more_ascending 19 parts many n []) reader.old reader.new result }
{
    let mut last = n;
    for _ in 0..many {
        last = reader.number_between(last + 1, parts, Condition::ChildNumber)?;
        let kid = last as usize;
        namers[kid] = sets::with(namers[kid], usize::from(path));
    }
    Ok(())
}

// Part n, after those that `namers` knows of.
fn read_part(
    reader: &mut Reader,
    paths: &Paths,
    parts: u32,
    n: usize,
    namers: &mut [u64; PARTS],
) -> Result<OnePart, Refusal>
    requires { (paths.now.count ≤ 64) × (parts ≤ part_limit) × (n < part_limit) }
    ensures { Reads (PartIs reader.old.bytes.now namers.old namers.new)
        (part_at (parent_at paths.now.parent) paths.now.count parts n (get_or namers.old n 0)) reader.old reader.new result }
{
    let named_by = namers[n];
    let path = reader.tested(|path| path_test(paths, n, named_by, path))? as u8;
    let place = reader.at;
    let many = reader.number()?;
    read_kids(reader, parts, n as u32, path, many, namers)?;
    Ok(OnePart { path, place })
}

// So many parts.
fn read_parts(
    reader: &mut Reader,
    paths: &Paths,
    count: usize,
    parts: &mut Parts,
) -> Result<(), Refusal>
    requires { (paths.now.count ≤ 64) × (count ≤ part_limit) }
    ensures { Reads (PartsAre reader.old.bytes.now parts.new) (more_parts (parent_at paths.now.parent) paths.now.count count count []) reader.old reader.new result }
{
    let mut namers = [0u64; PARTS];
    parts.count = count;
    for n in 0..count {
        let part = read_part(reader, paths, count as u32, n, &mut namers)?;
        parts.path[n] = part.path;
        parts.place[n] = part.place;
    }
    Ok(())
}

// A document of a table with these paths, and nothing after it. The parts go where they are lent a place: returned, they are
// copied at each `?`, which takes as long as checking a small document.
pub(crate) fn read_document(
    document: &[u8],
    paths: &Paths,
    parts: &mut Parts,
) -> Result<(), Refusal>
    requires { paths.now.count ≤ 64 }
    ensures { MatchResult result
        (λ _. DocumentIs document.now (run_all (document_file (parent_at paths.now.parent) paths.now.count) document.now) parts.new)
        (λ e. run_all (document_file (parent_at paths.now.parent) paths.now.count) document.now ≡ refused (condition_number e.condition) e.offset) }
{
    let mut reader = Reader::new(document);
    let count = reader.number_between(1, PARTS as u32 + 1, Condition::PartCount)?;
    read_parts(&mut reader, paths, count as usize, parts)?;
    reader.end()
}
