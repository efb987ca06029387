#![tactic(auto)]

// Entities, definitions of values and arguments of block calls, with the words that they are packed into.
pub mod arguments;
mod bits;
pub mod block_arg;
pub mod definitions;
pub mod entities;
pub mod fault;
pub mod laws;
pub mod packing;
pub mod printing;
pub mod reason;
pub mod refusals;
pub mod value_data;
