#![tactic(auto)]

pub mod list;
pub mod pair;
pub mod record;
