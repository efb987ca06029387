#![tactic(auto)]

// The graph that users hold, in memory that they lend. Its calls ask nothing and hand on, so that each edit is proved in
// a crate of its own.
pub mod blocks;
pub mod graph;
pub mod inst_edits;
pub mod param_edits;
pub mod reads;
pub mod result_lists;
