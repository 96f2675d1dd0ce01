// The documents handed back: goals of parts, their numbers, and the bytes.
#![tactic(auto)]

pub mod document;
mod emit;
mod emitter;
mod goals;
mod numbering;
mod order;
mod plan;
