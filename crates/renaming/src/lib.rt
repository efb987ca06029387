#![tactic(auto)]

// Functions from values to values, and the two that are built: a list of pairs, and the way along aliases.
pub mod aliases;
pub mod laws;
pub mod pairs;
pub mod renaming;
