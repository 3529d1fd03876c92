// Scopes of redaction pairs over one pair memory.
#![tactic(auto)]

pub mod marks;
pub mod note;
pub mod scope;
