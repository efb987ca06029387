#![tactic(auto)]

// The edits of instruction results, and what reads them, on the graph's data, for the graph above. Types and values to
// reuse stay two slices, as callers have them.
pub mod clear;
pub mod make;
pub mod reads;
pub mod replace;
pub mod reuse;
pub mod seats;
