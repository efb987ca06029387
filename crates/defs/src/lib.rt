#![tactic(auto)]

// The graph's data in lent memory, sound by its type, with the rows that edits are judged by and the steps that they
// are made of.
pub mod judges;
pub mod lists;
pub mod memory;
pub mod open;
pub mod state;
pub mod steps;
