// The text that the verdict program prints, laid out in blocks.
#![tactic(auto)]

mod block;
pub mod lay;
