// Tests of the walk on the trial texts: A is unset, E is empty, C is `12`.
#![tactic(auto)]

#[cfg(test)]
mod trials;
