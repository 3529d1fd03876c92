// Tests of sessions, as an embedder would hold them.
#![tactic(auto)]

#[cfg(test)]
mod sessions;
