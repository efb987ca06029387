#![tactic(auto)]

// What is read of values and of the parameters of blocks, on the graph's data, for the graph above.
pub mod param_reads;
pub mod readers;
pub mod reading;
pub mod value_reads;
