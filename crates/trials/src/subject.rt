// A random set that is tried, with what is worked out once for all of its cases.
use crate::least::{Deaths, deaths_of};
use crate::random::random_set;
use crate::search::{Families, families_of};
use crate::small::SmallSet;
use files::rules::Rules;

#[derive(Clone, Copy)]
pub struct Subject {
    pub set: SmallSet,
    pub table: Rules,
    pub deaths: Deaths,
    pub families: Families,
}

impl Subject {
    pub fn numbered(number: u64) -> Self {
        let set = random_set(number);
        Subject {
            set,
            table: set.table(),
            deaths: deaths_of(&set),
            families: families_of(&set),
        }
    }
}
