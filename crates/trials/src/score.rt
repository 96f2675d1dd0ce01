// How many cases of each group passed and failed, and the lines printed about them.
use crate::case::Case;
use crate::group::{GROUPS, Group};
use arrayvec::ArrayString;
use std::fmt;
use std::fmt::Write;

const STANDARD_OUTPUT: i32 = 1;

// No line is longer: a group, three numbers and the words between them.
const LINE: usize = 128;

fn print<T: fmt::Display>(line: &T) {
    let mut text = ArrayString::<LINE>::new();
    let _fits = writeln!(text, "{line}");
    io::write_all(STANDARD_OUTPUT, text.as_str().as_bytes());
}

#[derive(Clone, Copy, Debug, Default, PartialEq, Eq)]
struct Count {
    passed: u32,
    failed: u32,
}

impl Count {
    fn add(&mut self, passes: bool) {
        if passes {
            self.passed = self.passed.saturating_add(1);
        } else {
            self.failed = self.failed.saturating_add(1);
        }
    }

    fn plus(self, other: Count) -> Count {
        Count {
            passed: self.passed.saturating_add(other.passed),
            failed: self.failed.saturating_add(other.failed),
        }
    }
}

impl fmt::Display for Count {
    fn fmt<W: fmt::Write>(&self, f: &mut fmt::Formatter<W>) -> fmt::Result {
        let passed = self.passed;
        let failed = self.failed;
        write!(f, "passed {passed} failed {failed}")
    }
}

#[derive(Clone, Copy, Debug)]
struct Line<T> {
    of: T,
    count: Count,
}

impl<T: fmt::Display> fmt::Display for Line<T> {
    fn fmt<W: fmt::Write>(&self, f: &mut fmt::Formatter<W>) -> fmt::Result {
        let of = &self.of;
        let count = self.count;
        write!(f, "{of} {count}")
    }
}

// A case that failed, with what was expected and got as numbers.
#[derive(Clone, Copy, Debug, Default, PartialEq, Eq)]
pub struct Failure {
    pub group: Group,
    pub case: u64,
    pub expected: u64,
    pub got: u64,
}

impl fmt::Display for Failure {
    fn fmt<W: fmt::Write>(&self, f: &mut fmt::Formatter<W>) -> fmt::Result {
        let group = self.group;
        let case = self.case;
        let expected = self.expected;
        let got = self.got;
        write!(f, "{group} case {case} expected {expected} got {got}")
    }
}

#[derive(Drop)]
pub struct Score {
    counts: [Count; GROUPS.len()],
}

impl Score {
    pub fn new() -> Self {
        Score {
            counts: [Count::default(); GROUPS.len()],
        }
    }

    pub fn case(&mut self, number: u64) -> Case<'_> {
        Case::new(self, number)
    }

    pub fn pass(&mut self, group: Group) {
        self.counts[group as usize].add(true);
    }

    // Its line is printed at once, so that none is lost where a later call hangs.
    pub fn fail(&mut self, failure: Failure) {
        print(&failure);
        self.counts[failure.group as usize].add(false);
    }

    fn total(&self) -> Count {
        self.counts
            .iter()
            .fold(Count::default(), |all, &count| all.plus(count))
    }

    fn print_counts(&self) {
        for (group, count) in GROUPS.iter().zip(&self.counts) {
            print(&Line {
                of: *group,
                count: *count,
            });
        }
    }

    // How many cases of each group and of all passed and failed.
    pub fn print(&self) {
        self.print_counts();
        print(&Line {
            of: "total",
            count: self.total(),
        });
    }
}
