// The two calls: consistency and questions.
#![tactic(auto)]

pub mod consistency;
pub mod question;
