#![tactic(auto)]

mod draft;
pub mod redact;
mod steps;
#[cfg(test)]
mod tests;
