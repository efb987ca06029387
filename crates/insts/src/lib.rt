#![tactic(auto)]

// The edits that make blocks and instructions, on the graph's data and any instruction table, and what is read of how
// many there are, for the graph above. Data and table stay two parameters: the table is the caller's, lent for one call.
pub mod blocks;
pub mod clone;
pub mod make;
pub mod reads;
pub mod steps;
