// Paths and documents: what obeying means, and checking a document.
#![tactic(auto)]

pub mod check;
pub mod context;
mod document;
mod held;
