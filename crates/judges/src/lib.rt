#![tactic(auto)]

// The rows of lists of arguments, of a value that another replaces, and of a graph beside its table, for the crates above.
pub mod each;
pub mod lists;
pub mod places;
pub mod tables;
