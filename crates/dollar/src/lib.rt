// The library as C calls it: structs of numbers, and slices as a pointer and a length. `include/dollar.h` is its other half.
#![tactic(auto)]

pub mod calls;
pub mod checks;
pub mod marks;
pub mod opening;
pub mod outcome;
pub mod read;
pub mod redactions;
pub mod sessions;
pub mod table;
