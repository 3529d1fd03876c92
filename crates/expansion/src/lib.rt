// What a text with references comes to: the definition of the walk, and the laws above it. There is no code here; crate `walk` has it.
#![tactic(auto)]
