// Numbers, sets of paths, the rule table, and rule files in and out.
#![tactic(auto)]

pub mod kind;
pub mod members;
pub mod number;
mod path_test;
pub mod read;
pub mod reader;
pub mod refusal;
pub mod rules;
pub mod sets;
pub mod valid;
pub mod write;
