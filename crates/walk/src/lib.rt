// The walk over a text with references.
#![tactic(auto)]

pub mod apply;
pub mod frame;
pub mod frames;
pub mod interpolate;
pub mod marks;
mod plain;
pub mod record;
pub mod slot;
mod state;
pub mod step;
