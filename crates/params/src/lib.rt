#![tactic(auto)]

// The edits of blocks and their parameters, on the graph's data, for the graph above.
pub mod append;
pub mod detach;
pub mod remove;
pub mod replace;
