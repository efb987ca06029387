#![tactic(auto)]

// Definitions of values in packed memory: reading them, following aliases, and the table that a graph keeps them in.
pub mod kind;
pub mod laws;
pub mod resolve;
pub mod table;
pub mod table_calls;
