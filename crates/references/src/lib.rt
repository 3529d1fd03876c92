// References in braces: how one is read.
#![tactic(auto)]

pub mod brace;
pub mod error;
pub mod op;
