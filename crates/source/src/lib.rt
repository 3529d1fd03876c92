// Property sources: what a source means, and how it is asked.
#![tactic(auto)]

pub mod error;
pub mod fetch;
pub mod source;
