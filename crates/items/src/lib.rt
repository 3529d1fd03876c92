// What stands at a place of a frame.
#![tactic(auto)]

pub mod action;
pub mod look;
mod read;
